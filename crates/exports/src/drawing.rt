// What stands between a card's bits and its colours: Gray code, masks, bit scores, drawing, unmasking, reading, and a read card's
// page.
//
// Twin: the C interface has a function for each call, and a call that hands on as many arguments has the same shape.
// Slices: the C interface lends them so, each a pointer and a length.
ghost use Rattle.std.specs.Prelude.{◌≡◌};
ghost use Rattle.limits.specs.Chroma as symbols;
ghost use Rattle.answers.specs.Answers as told;
ghost use Rattle.modulate.specs.Draw as drawing_spec;
ghost use Rattle.symbols.specs.Gray as gray_code;
ghost use Rattle.symbols.specs.Mask as masks;
ghost use Rattle.reading.specs.Read as reading;
ghost use Rattle.modulate.specs.Score as scores;
ghost use Rattle.page.specs.Calls as page_call;
ghost use Rattle.exports.specs.Replies as spec;
ghost use Rattle.exports.specs.Exits as exits;
ghost use Rattle.exports.specs.Layouts.{layout};

use super::replies;
use super::replies::NumberAnswer;
use layout::Layout;

// The reflected binary code of n.
#[unsafe(no_mangle)]
pub extern "C" fn purdolve_gray(n: usize) -> usize
    ensures { result ≡ gray_code.gray n }
{
    symbols::gray(n)
}

// The number whose reflected binary code is g.
#[unsafe(no_mangle)]
pub extern "C" fn purdolve_gray_inverse(g: usize) -> usize
    ensures { result ≡ gray_code.gray_inverse g }
{
    symbols::gray_inverse(g)
}

// The hue state of a chroma symbol. Refused: 3.
#[unsafe(no_mangle)]
pub extern "C" fn purdolve_chroma_symbol_to_hue(symbol: usize, hues: usize) -> NumberAnswer
    ensures { result ≡ spec.number_answer (told.answered (told.hues_only hues) (gray_code.chroma_symbol_to_hue symbol hues)) }
{
    NumberAnswer::from(symbols::chroma_symbol_to_hue(symbol, hues))
}

// The chroma symbol of a hue state. Refused: 3.
#[unsafe(no_mangle)]
pub extern "C" fn purdolve_hue_to_chroma_symbol(hue: usize, hues: usize) -> NumberAnswer
    ensures { result ≡ spec.number_answer (told.answered (told.hues_only hues) (gray_code.hue_to_chroma_symbol hue hues)) }
{
    NumberAnswer::from(symbols::hue_to_chroma_symbol(hue, hues))
}

// Whether mask `id`, of which the low three bits count, turns the luma bit of the module at (x, y).
#[unsafe(no_mangle)]
pub extern "C" fn purdolve_luma_mask(id: u8, x: u16, y: u16) -> bool
    ensures { result ≡ masks.luma_mask id x y }
{
    symbols::luma_mask(id, x, y)
}

// By how many hues the cell (cx, cy) is rotated. Refused: 3, 7.
#[unsafe(no_mangle)]
pub extern "C" fn purdolve_chroma_rotation(cx: u16, cy: u16, hues: usize) -> NumberAnswer
    ensures { result ≡ spec.number_answer (told.answered (told.hues_and_cell hues cx cy) (masks.chroma_rotation cx cy hues)) }
{
    NumberAnswer::from(symbols::chroma_rotation(cx, cy, hues))
}

// The hue that the cell (cx, cy) draws for `hue`, of which the remainder by `hues` counts. Refused: 3, 7.
#[unsafe(no_mangle)]
pub extern "C" fn purdolve_chroma_mask_apply(
    hue: usize,
    cx: u16,
    cy: u16,
    hues: usize,
) -> NumberAnswer
    ensures { result ≡ spec.number_answer (told.answered (told.hues_and_cell hues cx cy) (masks.chroma_mask_apply hue cx cy hues)) }
{
    NumberAnswer::from(symbols::chroma_mask_apply(hue, cx, cy, hues))
}

// The hue that the cell (cx, cy) drew as `hue`, of which the remainder by `hues` counts. Refused: 3, 7.
#[unsafe(no_mangle)]
pub extern "C" fn purdolve_chroma_mask_remove(
    hue: usize,
    cx: u16,
    cy: u16,
    hues: usize,
) -> NumberAnswer
    ensures { result ≡ spec.number_answer (told.answered (told.hues_and_cell hues cx cy) (masks.chroma_mask_remove hue cx cy hues)) }
{
    NumberAnswer::from(symbols::chroma_mask_remove(hue, cx, cy, hues))
}

// The log2(hues) bit scores of a chroma entry from its hue likelihoods `ll`: of the cell (cx, cy), or, where `masked` is false, of
// a ring module, on which no mask lies and for which cx and cy do not count. Answers document 01's number. Refused: 3, 5, 7;
// nothing is written then.
#[tactic(auto, unfolding(crate::specs::Exits::write_exit))]
#[unsafe(no_mangle)]
pub extern "C" fn purdolve_chroma_bit_llrs(
    ll: &[f32],
    masked: bool,
    cx: u16,
    cy: u16,
    hues: usize,
    out: &mut [f32],
) -> u32
    ensures { exits.exit1 result out.new ≡ exits.write_exit (scores.chroma_bit_llrs_of ll.now (spec.cell_of masked cx cy) hues out.old) }
{
    answers::outcome_number(modulate::chroma_bit_llrs(
        ll,
        replies::cell_of(masked, cx, cy),
        hues,
        out,
    ))
}

// Turns the sign of the luma score of every grid module, the first `grid` of those listed, whose bit the mask turned. Answers
// document 01's number. Refused: 2, 5, 6, 7; nothing is written then.
#[tactic(auto, unfolding(crate::specs::Exits::write_exit))]
#[unsafe(no_mangle)]
pub extern "C" fn purdolve_unmask_luma(
    luma: &mut [f32],
    side: usize,
    xs: &[i32],
    ys: &[i32],
    grid: usize,
    mask: u8,
) -> u32
    ensures { exits.exit1 result luma.new ≡ exits.write_exit (scores.unmask_luma_of luma.old side xs.now ys.now grid mask) }
{
    answers::outcome_number(modulate::unmask_luma(luma, side, xs, ys, grid, mask))
}

// The bit that a score stands for: 1 below zero, 0 above it, and 2, an erasure, for either zero and for NaN.
#[unsafe(no_mangle)]
pub extern "C" fn purdolve_read(score: f32) -> u8
    ensures { result ≡ reading.reads score }
{
    reading::read(score)
}

// The bits of a list of scores, one a score, 2 where a score is an erasure. Answers document 01's number. Refused: 5; nothing is written then.
#[tactic(auto, unfolding(crate::specs::Exits::write_exit))]
#[unsafe(no_mangle)]
pub extern "C" fn purdolve_read_list(scores: &[f32], bits: &mut [u8]) -> u32
    ensures { exits.exit1 result bits.new ≡ exits.write_exit (reading.read_list_of scores.now bits.old) }
{
    answers::outcome_number(reading::read_list(scores, bits))
}

// Lays a read card out as a page of text, from its unmasked luma scores: side + 1 lines of 50 columns and a line feed, at the front
// of `out`. Answers document 01's number. Refused: 2, 5 (fewer than 51 × (side + 1) bytes too), 6 (a count above its limit too), 7, 10,
// 14 (the side is above 40); nothing is written then.
#[tactic(auto, unfolding(crate::specs::Exits::write_exit))]
#[unsafe(no_mangle)]
pub extern "C" fn purdolve_page(
    side: usize,
    terms: usize,
    kept: u32,
    rejected: u32,
    held: usize,
    xs: &[i32],
    ys: &[i32],
    grid: usize,
    luma: &[f32],
    out: &mut [u8],
) -> u32
    ensures { exits.exit1 result out.new ≡ exits.write_exit (page_call.page_of (page_call.request side terms kept rejected held xs.now ys.now grid luma.now out.old)) }
{
    answers::outcome_number(page::page(side, terms, kept, rejected, held, xs, ys, grid, luma, out))
}

// The level of a grid module, 1 for light: its bit, other than 0 for 1, turned where the mask turns it.
#[unsafe(no_mangle)]
pub extern "C" fn purdolve_grid_level(bit: u8, mask: u8, x: u16, y: u16) -> u8
    ensures { result ≡ drawing_spec.grid_level bit mask x y }
{
    modulate::grid_level(bit, mask, x, y)
}

// The level of a ring module, 1 for light: its bit, other than 0 for 1.
#[unsafe(no_mangle)]
pub extern "C" fn purdolve_ring_level(bit: u8) -> u8
    ensures { result ≡ drawing_spec.ring_level bit }
{
    modulate::ring_level(bit)
}

// The symbol of the first log2(hues) bits, high bit first. Refused: 3, 5.
#[unsafe(no_mangle)]
pub extern "C" fn purdolve_symbol_of_bits(bits: &[u8], hues: usize) -> NumberAnswer
    ensures { result ≡ spec.number_answer (told.answered (drawing_spec.symbol_sentences bits.now hues) (drawing_spec.symbol_at bits.now 0 (symbols.log2 hues))) }
{
    NumberAnswer::from(modulate::symbol_of_bits(bits, hues))
}

// The hue that the cell (cx, cy) is drawn in for its symbol. Refused: 3, 7.
#[unsafe(no_mangle)]
pub extern "C" fn purdolve_cell_hue(symbol: usize, cx: u16, cy: u16, hues: usize) -> NumberAnswer
    ensures { result ≡ spec.number_answer (told.answered (told.hues_and_cell hues cx cy) (drawing_spec.cell_hue symbol cx cy hues)) }
{
    NumberAnswer::from(modulate::cell_hue(symbol, cx, cy, hues))
}

// The hue that a ring module is drawn in for its symbol: no mask lies on it. Refused: 3.
#[unsafe(no_mangle)]
pub extern "C" fn purdolve_ring_hue(symbol: usize, hues: usize) -> NumberAnswer
    ensures { result ≡ spec.number_answer (told.answered (told.hues_only hues) (drawing_spec.ring_hue symbol hues)) }
{
    NumberAnswer::from(modulate::ring_hue(symbol, hues))
}

// Draws a card: the level of each listed module, 1 for light, and, with chroma on, the hue of each cell and, at cell size 1, of
// each ring module. Answers document 01's number. Refused: 2, 3, 4, 5, 6, 7; nothing is written then.
#[tactic(auto, unfolding(crate::specs::Exits::draw_exit))]
#[unsafe(no_mangle)]
pub extern "C" fn purdolve_draw(
    bits: &[u8],
    side: usize,
    hues: usize,
    size: usize,
    xs: &[i32],
    ys: &[i32],
    grid: usize,
    cxs: &[u16],
    cys: &[u16],
    mask: u8,
    levels: &mut [u8],
    drawn: &mut [usize],
) -> u32
    ensures { exits.exit2 result levels.new drawn.new ≡ exits.draw_exit (drawing_spec.draw_of (drawing_spec.card bits.now (layout side hues size grid) xs.now ys.now cxs.now cys.now mask levels.old drawn.old)) }
{
    let layout = Layout {
        side,
        hues,
        size,
        grid,
    };
    answers::outcome_number(modulate::draw(bits, layout, xs, ys, cxs, cys, mask, levels, drawn))
}
