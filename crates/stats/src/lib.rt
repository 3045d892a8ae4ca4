// The noise record of a capture with its methods (demod.rs, `ChannelStats`).
//
// A first use: `ChannelStats::nominal(palette, hues)` gives the record to fall back on, and
// `noise.luma_llr(l)` the score of a sample's L, positive for dark.
#![tactic(auto)]

ghost use Rattle.std.specs.Prelude.{◌≡◌, ℕ, ◌*◌, ◌<◌, ◌≤◌, length, Float};
ghost use Rattle.sentences.specs.Sentences.{refusal};
ghost use Rattle.answers.specs.Answers.{said, outcome_number, ended};
ghost use Rattle.color.specs.Palette.{palette_len};
ghost use Rattle.stats.specs.Noise as spec;
ghost use Rattle.stats.specs.Calls as call;

use answers::Refusal;
use color::Lab;
use color::palette::{Palette, beyond, level_l};

// What was measured of the channel: the observed L of the dark and the light level, the luma noise, the
// chroma noise pooled over both levels and that of each level (0 where it was not measured), and the
// number of known colours that the figures come from.
#[repr(C)]
#[derive(Clone, Copy, Debug, PartialEq)]
pub struct ChannelStats {
    pub l0: f32,
    pub l1: f32,
    pub sigma_l: f32,
    pub sigma_ab: f32,
    pub sigma_ab_dark: f32,
    pub sigma_ab_light: f32,
    pub samples: u32,
}

// A card's channel: the noise record of its capture, and the palette that it was drawn with.
#[derive(Clone, Copy, Debug)]
pub struct Channel<'a> {
    pub noise: ChannelStats,
    pub palette: Palette<'a>,
}

// ---- the cores, for every float

impl ChannelStats {
    // Where l stands from the dark level, 0, to the light one, 1.
    #[tactic(auto, using(crate::proofs::Literals::literals), unfolding(crate::specs::Noise::between))]
    fn between(self, l: f32) -> f32
        ensures { result ≡ spec.between self l }
    {
        let gap = float::max(self.l1 - self.l0, 0.001);
        float::clamp((l - self.l0) / gap, 0.0, 1.0)
    }

    // Core: `sigma_ab_at`.
    #[tactic(auto, using(crate::proofs::Literals::literals), unfolding(crate::specs::Noise::sigma_ab_at))]
    pub fn sigma_ab_of(self, l: f32) -> f32
        ensures { result ≡ spec.sigma_ab_at self l }
    {
        if self.sigma_ab_dark <= 0.0 || self.sigma_ab_light <= 0.0 {
            self.sigma_ab
        } else {
            self.sigma_ab_dark + (self.sigma_ab_light - self.sigma_ab_dark) * self.between(l)
        }
    }

    // Core: `luma_llr`.
    #[tactic(auto, using(crate::proofs::Literals::literals), unfolding(crate::specs::Noise::luma_llr))]
    pub fn luma_llr_of(self, l: f32) -> f32
        ensures { result ≡ spec.luma_llr self l }
    {
        let v = (self.l1 - self.l0) * (self.l0 + self.l1 - 2.0 * l)
            / (2.0 * self.sigma_l * self.sigma_l);
        float::clamp(v, -20.0, 20.0)
    }

    // The squared distance of a sample from a palette colour c, in units of the noise at c's lightness;
    // s_ab is the chroma noise there.
    #[tactic(auto, unfolding(crate::specs::Noise::distance))]
    fn distance(self, sample: Lab, c: Lab, s_ab: f32) -> f32
        requires { s_ab ≡ spec.sigma_ab_at self c.l }
        ensures { result ≡ spec.distance self sample c }
    {
        let dl = (sample.l - c.l) / self.sigma_l;
        let da = (sample.a - c.a) / s_ab;
        let db = (sample.b - c.b) / s_ab;
        dl * dl + da * da + db * db
    }

    // Twice the squared chroma noise at the sample's lightness.
    #[tactic(auto, using(crate::proofs::Literals::literals), unfolding(crate::specs::Noise::denominator))]
    fn denominator(self, sample: Lab) -> f32
        ensures { result ≡ spec.denominator self sample }
    {
        let s_ab = self.sigma_ab_of(sample.l);
        2.0 * s_ab * s_ab
    }

    // Core: `nominal`, of a palette that has its levels.
    #[tactic(auto, using(crate::proofs::Literals::literals))]
    pub fn nominal_of(palette: &[f32]) -> ChannelStats
        requires { 2 ≤ length palette.now }
        ensures { result ≡ spec.nominal palette.now }
    {
        ChannelStats {
            l0: level_l(palette, 0),
            l1: level_l(palette, 1),
            sigma_l: 6.0,
            sigma_ab: 6.0,
            sigma_ab_dark: 0.0,
            sigma_ab_light: 0.0,
            samples: 0,
        }
    }
}

// Core: how much a squared distance d lets a sample be believed: flat out to about 3 sigmas, then falling.
#[tactic(auto, using(crate::proofs::Literals::literals), unfolding(crate::specs::Noise::weight))]
pub fn weight(d: f32) -> f32
    ensures { result ≡ spec.weight d }
{
    let t = float::sqrt(d) / 3.0;
    let square = t * t;
    1.0 / (1.0 + square * square)
}

// Of a channel.
impl<'a> Channel<'a> {
    // Core: the channel of a noise record and of a palette's numbers that are long enough for its hues.
    pub fn new(noise: ChannelStats, numbers: &'a [f32], hues: usize) -> Channel<'a>
        requires { palette_len hues ≤ length numbers.now }
        ensures { (result.noise ≡ noise) × (result.palette.numbers.now ≡ numbers.now) × (result.palette.hues ≡ hues) }
    {
        Channel {
            noise,
            palette: Palette::new(numbers, hues),
        }
    }

    // The distance from the nearest palette colour; `sigma` gives the chroma noise at colour i, whose lightness is l.
    fn nearest_with<F: Fn(usize, f32) -> f32>(&self, sample: Lab, sigma: F) -> f32
        requires callable { (i : ℕ) → i < 2 * self.now.palette.hues → F.pre sigma i (spec.lightness_at self.now.palette.numbers.now self.now.palette.hues i) }
        requires sigmas { (i : ℕ) (s : Float) → i < 2 * self.now.palette.hues → F.post sigma i (spec.lightness_at self.now.palette.numbers.now self.now.palette.hues i) s → s ≡ spec.sigma_ab_at self.now.noise (spec.lightness_at self.now.palette.numbers.now self.now.palette.hues i) }
        ensures { result ≡ spec.nearest self.now.noise sample self.now.palette.numbers.now self.now.palette.hues }
    {
        let mut best = f32::INFINITY;
        // By index: a colour is three numbers of the flat palette, and no element.
        for i in 0..self.palette.colours() {
            let c = self.palette.lab(i);
            best = float::min(best, self.noise.distance(sample, c, sigma(i, c.l)));
        }
        best
    }

    // Core: `reliability`.
    #[tactic(auto, unfolding(crate::specs::Noise::reliability))]
    pub fn reliability_of(&self, sample: Lab) -> f32
        ensures { result ≡ spec.reliability self.now.noise sample self.now.palette.numbers.now self.now.palette.hues }
    {
        weight(self.nearest_with(sample, |_, l| self.noise.sigma_ab_of(l)))
    }

    // Core: writes the chroma noise at the lightness of each palette colour to the front of `sigmas`.
    pub fn palette_sigmas(&self, sigmas: &mut [f32])
        requires { 2 * self.now.palette.hues ≤ length sigmas.old }
        ensures { sigmas.new ≡ spec.palette_sigmas self.now.noise self.now.palette.numbers.now self.now.palette.hues sigmas.old }
    {
        for (i, sigma) in sigmas[..2 * self.palette.hues].iter_mut().enumerate() {
            *sigma = self.noise.sigma_ab_of(self.palette.lab(i).l);
        }
    }

    // Core: the distance from the nearest palette colour, the palette's chroma noises being given.
    pub fn nearest_by(&self, sample: Lab, sigmas: &[f32]) -> f32
        requires { spec.Sigmas self.now.noise self.now.palette.numbers.now self.now.palette.hues sigmas.now }
        ensures { result ≡ spec.nearest self.now.noise sample self.now.palette.numbers.now self.now.palette.hues }
    {
        self.nearest_with(sample, |i, _| sigmas[i])
    }

    // The log-likelihood of hue h, for a sample and twice its squared noise.
    #[tactic(auto, unfolding(crate::specs::Noise::hue_log_likelihood))]
    fn likelihood(&self, sample: Lab, denom: f32, h: usize) -> f32
        requires { h < self.now.palette.hues }
        ensures { result ≡ spec.hue_log_likelihood sample denom self.now.palette.numbers.now h }
    {
        let point = self.palette.point(h);
        let da = sample.a - point.a;
        let db = sample.b - point.b;
        -(da * da + db * db) / denom
    }

    // Core: `hue_log_likelihoods`, of room that is long enough.
    pub fn hue_log_likelihoods_of(&self, sample: Lab, out: &mut [f32])
        requires { self.now.palette.hues ≤ length out.old }
        ensures { out.new ≡ spec.hue_log_likelihoods self.now.noise sample self.now.palette.numbers.now self.now.palette.hues out.old }
    {
        let denom = self.noise.denominator(sample);
        for (h, entry) in out[..self.palette.hues].iter_mut().enumerate() {
            *entry = self.likelihood(sample, denom, h);
        }
    }

    // Core: sentence 8.
    #[tactic(auto, unfolding(crate::specs::Calls::bad_numbers))]
    pub fn has_bad_numbers(&self) -> bool
        ensures { result ≡ call.bad_numbers self.now.noise self.now.palette.numbers.now self.now.palette.hues }
    {
        self.palette.is_wild() || bad_noise_numbers(self.noise)
    }

    // Core: whether the numbers pass. Refused: 8, 9.
    #[tactic(auto, unfolding(sentences::specs::Sentences::refusal))]
    pub fn check_figures(&self) -> Result<(), Refusal>
        ensures { outcome_number result ≡ refusal (call.figure_sentences self.now.noise self.now.palette.numbers.now self.now.palette.hues) }
    {
        if self.has_bad_numbers() {
            return Err(Refusal::Number);
        }
        if bad_sigmas(self.noise) {
            return Err(Refusal::Sigma);
        }
        Ok(())
    }
}

// ---- the sentences
// Slices: what is looked at as the C interface lends it, of which nothing is known yet.

// Core: sentence 5, of a palette: it is shorter than 2 + 8 × hues.
#[tactic(auto, unfolding(crate::specs::Calls::short_palette))]
pub fn short_palette(palette: &[f32], hues: usize) -> bool
    ensures { result ≡ call.short_palette palette.now hues }
{
    // divided, since 8 × hues may not fit
    palette.len() < 2 || (palette.len() - 2) / 8 < hues
}

// Whether a figure of a noise record is not finite or above 2^40 in magnitude.
#[tactic(auto, using(crate::proofs::Literals::literals), unfolding(crate::specs::Calls::wild_figure, color::specs::Palette::beyond))]
fn wild_figure(v: f32) -> bool
    ensures { result ≡ call.wild_figure v }
{
    beyond(1099511627776.0, v)
}

// Core: sentence 8, of a noise record.
#[tactic(auto, unfolding(crate::specs::Calls::bad_noise_numbers))]
pub fn bad_noise_numbers(noise: ChannelStats) -> bool
    ensures { result ≡ call.bad_noise_numbers noise }
{
    wild_figure(noise.l0)
        || wild_figure(noise.l1)
        || wild_figure(noise.sigma_l)
        || wild_figure(noise.sigma_ab)
        || wild_figure(noise.sigma_ab_dark)
        || wild_figure(noise.sigma_ab_light)
}

// Whether a level's sigma is neither 0 nor at least 0.75.
#[tactic(auto, using(crate::proofs::Literals::literals), unfolding(crate::specs::Calls::bad_level_sigma))]
fn bad_level_sigma(v: f32) -> bool
    ensures { result ≡ call.bad_level_sigma v }
{
    !(v == 0.0 || 0.75 <= v)
}

// Core: sentence 9, of a noise record.
#[tactic(auto, using(crate::proofs::Literals::literals), unfolding(crate::specs::Calls::bad_sigmas))]
pub fn bad_sigmas(noise: ChannelStats) -> bool
    ensures { result ≡ call.bad_sigmas noise }
{
    noise.sigma_l < 0.75
        || noise.sigma_ab < 0.75
        || bad_level_sigma(noise.sigma_ab_dark)
        || bad_level_sigma(noise.sigma_ab_light)
}

// Whether a noise record passes. Refused: 8, 9.
#[tactic(auto, unfolding(crate::specs::Calls::record_sentences, sentences::specs::Sentences::refusal))]
fn check_record(noise: ChannelStats) -> Result<(), Refusal>
    ensures { outcome_number result ≡ refusal (call.record_sentences noise) }
{
    if bad_noise_numbers(noise) {
        return Err(Refusal::Number);
    }
    if bad_sigmas(noise) {
        return Err(Refusal::Sigma);
    }
    Ok(())
}

// Whether a palette passes. Refused: 3, 5, 8.
#[tactic(auto, unfolding(crate::specs::Calls::palette_sentences, crate::specs::Calls::short_palette, sentences::specs::Sentences::refusal))]
fn check_palette(palette: &[f32], hues: usize) -> Result<(), Refusal>
    ensures { outcome_number result ≡ refusal (call.palette_sentences palette.now hues) }
{
    if limits::bad_hues(hues) {
        return Err(Refusal::Hues);
    }
    if short_palette(palette, hues) {
        return Err(Refusal::Length);
    }
    if Palette::new(palette, hues).is_wild() {
        return Err(Refusal::Number);
    }
    Ok(())
}

// Core: whether a noise record and a palette pass. Refused: 3, 5, 8, 9.
#[tactic(auto, unfolding(crate::specs::Calls::sentences_of, crate::specs::Calls::short_palette, sentences::specs::Sentences::refusal))]
pub fn check(noise: ChannelStats, palette: &[f32], hues: usize) -> Result<(), Refusal>
    ensures { outcome_number result ≡ refusal (call.sentences_of noise palette.now hues) }
{
    if limits::bad_hues(hues) {
        return Err(Refusal::Hues);
    }
    if short_palette(palette, hues) {
        return Err(Refusal::Length);
    }
    Channel::new(noise, palette, hues).check_figures()
}

// Sentence 5, of the likelihoods: the palette or the room for one a hue is too short.
#[tactic(auto, unfolding(crate::specs::Calls::short_likelihoods))]
fn short_likelihoods(palette: &[f32], hues: usize, out: &[f32]) -> bool
    ensures { result ≡ call.short_likelihoods palette.now hues out.now }
{
    short_palette(palette, hues) || out.len() < hues
}

// Whether a noise record, a palette and the room for a likelihood a hue pass. Refused: 3, 5, 8, 9.
#[tactic(auto, unfolding(crate::specs::Calls::likelihood_sentences, crate::specs::Calls::short_likelihoods, crate::specs::Calls::short_palette, sentences::specs::Sentences::refusal))]
fn check_likelihoods(
    noise: ChannelStats,
    palette: &[f32],
    hues: usize,
    out: &[f32],
) -> Result<(), Refusal>
    ensures { outcome_number result ≡ refusal (call.likelihood_sentences noise palette.now hues out.now) }
{
    if limits::bad_hues(hues) {
        return Err(Refusal::Hues);
    }
    if short_likelihoods(palette, hues, out) {
        return Err(Refusal::Length);
    }
    Channel::new(noise, palette, hues).check_figures()
}

// ---- the public calls
// Slices: as the C interface lends them.

impl ChannelStats {
    // The chroma noise at lightness l, between those of the two levels by where l stands between them;
    // the pooled noise where a level has none. Refused: 8, 9.
    pub fn sigma_ab_at(self, l: f32) -> Result<f32, Refusal>
        ensures { said result ≡ call.sigma_ab_answer self l }
    {
        check_record(self)?;
        Ok(self.sigma_ab_of(l))
    }

    // The log-likelihood ratio of a luma sample, (l1 - l0)(l0 + l1 - 2l) / 2σ², within ±20. Positive
    // means dark. Refused: 8, 9.
    pub fn luma_llr(self, l: f32) -> Result<f32, Refusal>
        ensures { said result ≡ call.luma_llr_answer self l }
    {
        check_record(self)?;
        Ok(self.luma_llr_of(l))
    }

    // How much to believe a sample, from 0 to 1, by its distance from the nearest palette colour in
    // units of that colour's noise. Refused: 3, 5, 8, 9.
    pub fn reliability(self, sample: Lab, palette: &[f32], hues: usize) -> Result<f32, Refusal>
        ensures { said result ≡ call.reliability_answer self sample palette.now hues }
    {
        check(self, palette, hues)?;
        let channel = Channel {
            noise: self,
            palette: Palette {
                numbers: palette,
                hues,
            },
        };
        Ok(channel.reliability_of(sample))
    }

    // Writes the log-likelihood of each hue, up to a constant that all share, to the front of `out`.
    // Refused: 3, 5, 8, 9.
    pub fn hue_log_likelihoods(
        self,
        sample: Lab,
        palette: &[f32],
        hues: usize,
        out: &mut [f32],
    ) -> Result<(), Refusal>
        ensures { ended result out.new ≡ call.likelihoods_answer self sample palette.now hues out.old }
    {
        check_likelihoods(self, palette, hues, out)?;
        let channel = Channel {
            noise: self,
            palette: Palette {
                numbers: palette,
                hues,
            },
        };
        channel.hue_log_likelihoods_of(sample, out);
        Ok(())
    }

    // The record to fall back on where too little can be measured: the palette's own levels, sigmas 6,
    // samples 0. Refused: 3, 5, 8.
    pub fn nominal(palette: &[f32], hues: usize) -> Result<ChannelStats, Refusal>
        ensures { said result ≡ call.nominal_answer palette.now hues }
    {
        check_palette(palette, hues)?;
        Ok(ChannelStats::nominal_of(palette))
    }
}
