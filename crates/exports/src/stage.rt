// The illumination model, the noise record, scoring and refinement, and reading a card in one call.
//
// Twin: the C interface has a function for each call, and a call that hands on as many arguments has the same shape.
// Slices: the C interface lends them so, each a pointer and a length.
ghost use Rattle.std.specs.Prelude.{◌≡◌};
ghost use Rattle.bits.specs.Reading.{setting, card, read_of};
ghost use Rattle.counts.specs.Calls.{counts_of};
ghost use Rattle.fit.specs.Fit as fit_call;
ghost use Rattle.illum.specs.Correct.{lent_model};
ghost use Rattle.illum.specs.Refusals as illum_call;
ghost use Rattle.illum.specs.Refusals.{correct_of};
ghost use Rattle.measure.specs.Measure as measure_call;
ghost use Rattle.refine.specs.Calls as refine_call;
ghost use Rattle.stats.specs.Calls as stats_call;
ghost use Rattle.margin.specs.Calls as margin_call;
ghost use Rattle.exports.specs.Replies as spec;
ghost use Rattle.exports.specs.Exits as exits;
ghost use Rattle.exports.specs.Exits.{exit3, scored};
ghost use Rattle.exports.specs.Layouts.{layout, to_score};

use super::replies;
use super::replies::{
    FlagAnswer, FloatAnswer, LinearAnswer, MeasureAnswer, ModelAnswer, NoiseAnswer, ScoreAnswer,
};
use color::{Lab, Linear};
use illum::IlluminationModel;
use layout::Layout;
use stats::ChannelStats;

// An observed colour at a position, corrected by a model that is lent part by part, with the marks of the channels whose gain was
// held. Refused: 8, 10.
#[unsafe(no_mangle)]
pub extern "C" fn purdolve_correct_lent<'a>(
    terms: usize,
    side: f32,
    residual_rms: f32,
    affine_r: &'a [f64; 4],
    affine_g: &'a [f64; 4],
    affine_b: &'a [f64; 4],
    gain_r: &'a [f64; 9],
    gain_g: &'a [f64; 9],
    gain_b: &'a [f64; 9],
    flare_r: &'a [f64; 9],
    flare_g: &'a [f64; 9],
    flare_b: &'a [f64; 9],
    x: f32,
    y: f32,
    colour: Linear,
) -> LinearAnswer
    ensures { result ≡ spec.linear_answer (correct_of (lent_model terms side residual_rms affine_r.now affine_g.now affine_b.now gain_r.now gain_g.now gain_b.now flare_r.now flare_g.now flare_b.now) x y colour) }
{
    LinearAnswer::from(illum::correct_lent(
        terms,
        side,
        residual_rms,
        affine_r,
        affine_g,
        affine_b,
        gain_r,
        gain_g,
        gain_b,
        flare_r,
        flare_g,
        flare_b,
        x,
        y,
        colour,
    ))
}

// Fits the model to references in flat floats, eight each: x, y, the observed colour, the nominal colour. Kept gets a byte a
// reference, 1 where it was kept, and 0 for all where the model counts none as kept. Scratch of 4 × references is all zero
// afterwards. Refused: 2, 5, 6, 7, 8, 11; kept and scratch are untouched then, save that 11 leaves scratch zero.
#[tactic(auto, unfolding(crate::specs::Exits::fit_exit))]
#[unsafe(no_mangle)]
pub extern "C" fn purdolve_fit_flat(
    flat: &[f32],
    side: usize,
    version: u8,
    kept: &mut [u8],
    scratch: &mut [f32],
) -> ModelAnswer
    ensures { exits.exit2 result kept.new scratch.new ≡ exits.fit_exit (fit_call.fit_of (fit_call.flat_request flat.now side version kept.old scratch.old)) }
{
    ModelAnswer::from(fit::fit_flat(flat, side, version, kept, scratch))
}

// Measures the noise record from references in flat floats, corrected by the model, and counts those that have a mark. Scratch of
// 4 × references is all zero afterwards. Refused: 2, 3, 5, 6, 7, 8, 10, 12; scratch is untouched then.
#[tactic(auto, unfolding(crate::specs::Exits::measure_exit))]
#[unsafe(no_mangle)]
pub extern "C" fn purdolve_measure_flat(
    flat: &[f32],
    side: usize,
    model: IlluminationModel,
    palette: &[f32],
    hues: usize,
    scratch: &mut [f32],
) -> MeasureAnswer
    ensures { exits.exit1 result scratch.new ≡ exits.measure_exit (measure_call.measure_of (measure_call.flat_request flat.now side model palette.now hues scratch.old)) }
{
    MeasureAnswer::from(measure::measure_flat(flat, side, model, palette, hues, scratch))
}

// Scores a card: writes a luma score a module, three components of its corrected colour, and, with chroma on, log2(hues) scores a
// cell and then, at cell size 1, a ring module. Answers document 01's number, and how many modules and how many cells have a mark.
// Refused: 2, 3, 4, 5, 6, 7, 8, 9, 10, 12; nothing is written then.
#[tactic(auto, unfolding(crate::specs::Exits::score_exit))]
#[unsafe(no_mangle)]
pub extern "C" fn purdolve_score(
    side: usize,
    hues: usize,
    size: usize,
    xs: &[i32],
    ys: &[i32],
    grid: usize,
    raw: &[f32],
    cxs: &[u16],
    cys: &[u16],
    craw: &[f32],
    palette: &[f32],
    model: IlluminationModel,
    noise: ChannelStats,
    luma: &mut [f32],
    colours: &mut [f32],
    chroma: &mut [f32],
) -> ScoreAnswer
    ensures { exit3 result luma.new colours.new chroma.new ≡ scored (to_score side hues size grid xs.now ys.now raw.now cxs.now cys.now craw.now palette.now model noise luma.old colours.old chroma.old) }
{
    let layout = Layout {
        side,
        hues,
        size,
        grid,
    };
    ScoreAnswer::from(demod::score(
        layout, xs, ys, raw, cxs, cys, craw, palette, model, noise, luma, colours, chroma,
    ))
}

// Refines the luma scores of the listed modules by their corrected colours. The scratch is zero afterwards in its first
// (side + 12)² elements. Answers document 01's number. Refused: 2, 3, 5, 6, 7, 8, 9; nothing is written then.
#[tactic(auto, unfolding(crate::specs::Exits::refine_exit))]
#[unsafe(no_mangle)]
pub extern "C" fn purdolve_add_local_luma(
    luma: &mut [f32],
    side: usize,
    hues: usize,
    xs: &[i32],
    ys: &[i32],
    grid: usize,
    colours: &[f32],
    palette: &[f32],
    noise: ChannelStats,
    scratch: &mut [f32],
) -> u32
    ensures { exits.exit2 result luma.new scratch.new ≡ exits.refine_exit (refine_call.refine_of (refine_call.request luma.old side hues xs.now ys.now grid colours.now palette.now noise scratch.old)) }
{
    answers::outcome_number(refine::add_local_luma(
        luma, side, hues, xs, ys, grid, colours, palette, noise, scratch,
    ))
}

// Reads a card from its raw colours in one call: scores it, refines and unmasks the luma scores in place, and writes the bits of
// the modules and of the symbols. Answers as scoring does, or the number of the first of the calls that is refused; the memory is
// then as that call left it. Refused: 2, 3, 4, 5, 6, 7, 8, 9, 10, 12.
#[tactic(auto, unfolding(crate::specs::Exits::read_exit))]
#[unsafe(no_mangle)]
pub extern "C" fn purdolve_read_bits(
    side: usize,
    hues: usize,
    size: usize,
    xs: &[i32],
    ys: &[i32],
    grid: usize,
    raw: &[f32],
    cxs: &[u16],
    cys: &[u16],
    craw: &[f32],
    palette: &[f32],
    mask: u8,
    model: IlluminationModel,
    noise: ChannelStats,
    luma: &mut [f32],
    colours: &mut [f32],
    chroma: &mut [f32],
    scratch: &mut [f32],
    bits: &mut [u8],
    symbols: &mut [u8],
) -> ScoreAnswer
    ensures { exits.exit6 result luma.new colours.new chroma.new scratch.new bits.new symbols.new ≡ exits.read_exit (read_of
        (setting (layout side hues size grid) xs.now ys.now cxs.now cys.now palette.now mask model noise)
        (card raw.now craw.now luma.old colours.old chroma.old scratch.old bits.old symbols.old)) }
{
    let layout = Layout {
        side,
        hues,
        size,
        grid,
    };
    ScoreAnswer::from(bits::read_bits(
        layout, xs, ys, raw, cxs, cys, craw, palette, mask, model, noise, luma, colours, chroma,
        scratch, bits, symbols,
    ))
}

// The model that corrects nothing, with 4 terms, for a card of this side. Refused: 2.
#[unsafe(no_mangle)]
pub extern "C" fn purdolve_identity(side: usize) -> ModelAnswer
    ensures { result ≡ spec.model_answer (illum_call.identity_of side) }
{
    ModelAnswer::from(illum::identity(side))
}

// The noise record to fall back on: the palette's own levels, sigmas 6, samples 0. Refused: 3, 5, 8.
#[unsafe(no_mangle)]
pub extern "C" fn purdolve_nominal(palette: &[f32], hues: usize) -> NoiseAnswer
    ensures { result ≡ spec.noise_answer (stats_call.nominal_answer palette.now hues) }
{
    NoiseAnswer::from(ChannelStats::nominal(palette, hues))
}

// The chroma noise at lightness l. Refused: 8, 9.
#[unsafe(no_mangle)]
pub extern "C" fn purdolve_sigma_ab_at(noise: ChannelStats, l: f32) -> FloatAnswer
    ensures { result ≡ spec.float_answer (stats_call.sigma_ab_answer noise l) }
{
    FloatAnswer::from(noise.sigma_ab_at(l))
}

// The log-likelihood ratio of a luma sample, positive for dark. Refused: 8, 9.
#[unsafe(no_mangle)]
pub extern "C" fn purdolve_luma_llr(noise: ChannelStats, l: f32) -> FloatAnswer
    ensures { result ≡ spec.float_answer (stats_call.luma_llr_answer noise l) }
{
    FloatAnswer::from(noise.luma_llr(l))
}

// How much to believe a sample, from 0 to 1. Refused: 3, 5, 8, 9.
#[unsafe(no_mangle)]
pub extern "C" fn purdolve_reliability(
    noise: ChannelStats,
    sample: Lab,
    palette: &[f32],
    hues: usize,
) -> FloatAnswer
    ensures { result ≡ spec.float_answer (stats_call.reliability_answer noise sample palette.now hues) }
{
    FloatAnswer::from(noise.reliability(sample, palette, hues))
}

// Writes the log-likelihood of each hue, up to a constant that all share, to the front of `out`. Answers document 01's number.
// Refused: 3, 5, 8, 9; nothing is written then.
#[tactic(auto, unfolding(crate::specs::Exits::write_exit))]
#[unsafe(no_mangle)]
pub extern "C" fn purdolve_hue_log_likelihoods(
    noise: ChannelStats,
    sample: Lab,
    palette: &[f32],
    hues: usize,
    out: &mut [f32],
) -> u32
    ensures { exits.exit1 result out.new ≡ exits.write_exit (stats_call.likelihoods_answer noise sample palette.now hues out.old) }
{
    answers::outcome_number(noise.hue_log_likelihoods(sample, palette, hues, out))
}

// The margin check, at 13. Refused: 3, 5, 8, 9.
#[unsafe(no_mangle)]
pub extern "C" fn purdolve_margin(noise: ChannelStats, palette: &[f32], hues: usize) -> FlagAnswer
    ensures { result ≡ spec.flag_answer (margin_call.margin_answer noise palette.now hues) }
{
    FlagAnswer::from(margin::margin(noise, palette, hues))
}

// The margin check at one of its settings, 9 or 13. Refused: 3, 5, 8, 9.
#[unsafe(no_mangle)]
pub extern "C" fn purdolve_margin_at(
    nine: bool,
    noise: ChannelStats,
    palette: &[f32],
    hues: usize,
) -> FlagAnswer
    ensures { result ≡ spec.flag_answer (margin_call.margin_at_answer (spec.threshold_of nine) noise palette.now hues) }
{
    FlagAnswer::from(margin::margin_at(replies::threshold_of(nine), noise, palette, hues))
}

// How the 32,768 sRGB colours whose bytes are multiples of 8 divide among the palette's levels and hues: writes the dark ones by hue,
// the light ones by hue and those whose luma score is zero or NaN to the front of `out`. Answers document 01's number. Refused: 3, 5,
// 8, 9; nothing is written then.
#[tactic(auto, unfolding(crate::specs::Exits::write_exit))]
#[unsafe(no_mangle)]
pub extern "C" fn purdolve_colour_counts(
    noise: ChannelStats,
    palette: &[f32],
    hues: usize,
    out: &mut [u32],
) -> u32
    ensures { exits.exit1 result out.new ≡ exits.write_exit (counts_of noise palette.now hues out.old) }
{
    answers::outcome_number(counts::colour_counts(noise, palette, hues, out))
}
