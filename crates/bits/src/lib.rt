// Reading a card in one call: from its raw colours to its bits. Scoring, refinement, unmasking and reading follow one another on
// lent memory, each handed what the one before it left. The contract of `read_bits` is the read guarantee.
#![tactic(auto)]

ghost use Rattle.std.specs.Prelude.{◌≡◌};
ghost use Rattle.guarantee.specs.Guarantee.{ReadGuarantee, ReadGuaranteeAtNine};
ghost use Rattle.bits.specs.Reading.{left, setting, card, read_of, Joined};

use answers::Refusal;
use demod::ScoreReport;
use illum::IlluminationModel;
use layout::Layout;
use stats::ChannelStats;

// Reads a card from its raw colours: scores it, refines and unmasks the luma scores in place, and writes a bit for each luma
// score that is lent, the modules', and for each chroma score, the symbols'. Scratch is that of refinement, (side + 12)² floats.
// The first of the calls `score`, `add_local_luma`, `unmask_luma`, `read_list` of the luma scores and `read_list` of the chroma
// scores that is refused gives its refusal, and the memory is as that call left it; where none is, the answer is scoring's, with how
// many modules and how many cells have a mark. Inside the margin, with each corrected colour
// within half a sigma of its drawn colour, the bits read are the bits drawn; inside the margin at 9 in place of 13 so too, where
// no refined score is a NaN. Refused: 2, 3, 4, 5, 6, 7, 8, 9, 10, 12.
// Slices: the C interface lends them so.
pub fn read_bits(
    layout: Layout,
    xs: &[i32],
    ys: &[i32],
    raw: &[f32],
    cxs: &[u16],
    cys: &[u16],
    craw: &[f32],
    palette: &[f32],
    mask: u8,
    model: IlluminationModel,
    noise: ChannelStats,
    luma: &mut [f32],
    colours: &mut [f32],
    chroma: &mut [f32],
    scratch: &mut [f32],
    bits: &mut [u8],
    symbols: &mut [u8],
) -> Result<ScoreReport, Refusal>
    ensures { let s = setting layout xs.now ys.now cxs.now cys.now palette.now mask model noise in
        let c = card raw.now craw.now luma.old colours.old chroma.old scratch.old bits.old symbols.old in
        let f = left result luma.new colours.new chroma.new scratch.new bits.new symbols.new in
        (f ≡ read_of s c) × Joined s c f × ReadGuarantee × ReadGuaranteeAtNine }
{
    let side = layout.side;
    let grid = layout.grid;
    let report = demod::score(
        layout, xs, ys, raw, cxs, cys, craw, palette, model, noise, luma, colours, chroma,
    )?;
    refine::add_local_luma(
        luma,
        side,
        layout.hues,
        xs,
        ys,
        grid,
        colours,
        palette,
        noise,
        scratch,
    )?;
    modulate::unmask_luma(luma, side, xs, ys, grid, mask)?;
    reading::read_list(luma, bits)?;
    reading::read_list(chroma, symbols)?;
    Ok(report)
}
