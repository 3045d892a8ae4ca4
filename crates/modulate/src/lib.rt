// What stands between a card's bits and its colours: drawing, the bit scores of hues (the Rust's modulate.rs), and unmasking.
//
// A first use: `draw` gives each module its level and each cell its hue from a card's bits. On the way back
// `chroma_bit_llrs` turns hue likelihoods into bit scores, and `unmask_luma` takes the mask off the luma scores, which
// `reading::read_list` makes bits of.
#![tactic(auto)]

ghost use Rattle.std.specs.Prelude.{◌≡◌, false, ◌+◌, ◌*◌, ◌%◌, ◌≤◌, ◌<◌, length};
ghost use Rattle.std.specs.Float.{nan};
ghost use Rattle.sentences.specs.Sentences.{refusal};
ghost use Rattle.lists.specs.Lists.{replace_at, replaced};
ghost use Rattle.limits.specs.Limits.{bad_hues};
ghost use Rattle.limits.specs.Chroma.{log2, symbol_bits};
ghost use Rattle.layout.specs.Groups.{Shaped, Positions, PositionAt};
ghost use Rattle.answers.specs.Answers.{said, outcome_number, answered, hues_only, hues_and_cell, ended};
ghost use Rattle.modulate.specs.Score as scores;
ghost use Rattle.modulate.specs.Draw as drawing;

use answers::Refusal;
use layout::{Layout, Modules};
use symbols::Hues;

// Where a chroma entry is drawn: a ring module, on which no mask lies, or a cell of the grid, by its coordinates.
#[derive(Clone, Copy, Debug)]
pub enum Cell {
    Unmasked,
    At(u16, u16),
}

// ---- bit scores

// The best likelihood so far of the hues whose bit is 0, and of those whose bit is 1.
#[derive(Clone, Copy, Debug)]
struct Best {
    zero: f32,
    one: f32,
}

impl Best {
    #[tactic(auto, unfolding(crate::specs::Score::bettered))]
    fn bettered(self, bit: usize, ll: f32) -> Best
        ensures { result ≡ scores.bettered bit ll self }
    {
        if bit == 0 {
            Best {
                zero: float::max(self.zero, ll),
                ..self
            }
        } else {
            Best {
                one: float::max(self.one, ll),
                ..self
            }
        }
    }
}

// A chroma entry: where it is drawn, in how many hues, and how many bits its symbol has.
#[derive(Clone, Copy, Debug)]
struct Entry {
    cell: Cell,
    hues: Hues,
    bits: usize,
    ghost counted: { bits ≡ log2 hues.count },
    ghost most: { hues.count ≤ 16 },
    ghost few: { bits ≤ 4 },
}

impl Entry {
    // The hue that was drawn as h.
    #[tactic(auto, unfolding(crate::specs::Score::unmasked_hue))]
    fn unmasked_hue(&self, h: usize) -> usize
        ensures { result ≡ scores.unmasked_hue self.now.cell self.now.hues.count h }
    {
        match self.cell {
            Cell::Unmasked => h,
            Cell::At(cx, cy) => self.hues.remove(h, cx, cy),
        }
    }

    // Bit b, from the high end, of the symbol behind hue h.
    #[tactic(auto, unfolding(crate::specs::Score::bit_of_hue, crate::specs::Score::symbol_bit))]
    fn bit_of_hue(&self, b: usize, h: usize) -> usize
        requires { b < self.now.bits }
        ensures { result ≡ scores.bit_of_hue self.now.cell self.now.hues.count b h }
    {
        let symbol = self.hues.symbol_of(self.unmasked_hue(h));
        (symbol >> (self.bits - 1 - b)) % 2
    }

    // The score of bit b: the best likelihood where it is 0 less the best where it is 1.
    fn bit_llr(&self, ll: &[f32], b: usize) -> f32
        requires { (b < self.now.bits) × (self.now.hues.count ≤ length ll.now) }
        ensures { result ≡ scores.bit_llr ll.now self.now.cell self.now.hues.count b }
    {
        let mut best = Best {
            zero: f32::NEG_INFINITY,
            one: f32::NEG_INFINITY,
        };
        for (h, &likelihood) in ll[..self.hues.count].iter().enumerate() {
            best = best.bettered(self.bit_of_hue(b, h), likelihood);
        }
        best.zero - best.one
    }
}

// Core: the bit scores of one chroma entry, positive for a 0, for every float; `chroma_bit_llrs` without its refusals.
pub fn bit_llrs(ll: &[f32], cell: Cell, hues: usize, out: &mut [f32])
    requires { (bad_hues hues ≡ false) × (hues ≤ length ll.now) × (log2 hues ≤ length out.old) }
    ensures { out.new ≡ scores.chroma_bit_llrs ll.now cell hues out.old }
{
    let bits = limits::log2(hues);
    let entry = Entry {
        cell,
        hues: Hues { count: hues },
        bits,
    };
    for (b, score) in out[..bits].iter_mut().enumerate() {
        *score = entry.bit_llr(ll, b);
    }
}

#[tactic(auto, unfolding(crate::specs::Score::bad_cell_of))]
fn bad_cell_of(cell: Cell) -> bool
    ensures { result ≡ scores.bad_cell_of cell }
{
    match cell {
        Cell::Unmasked => false,
        Cell::At(cx, cy) => limits::bad_cell(cx, cy),
    }
}

#[tactic(auto, unfolding(crate::specs::Score::bad_score_lengths))]
fn bad_score_lengths(hues: usize, ll: &[f32], out: &[f32]) -> bool
    ensures { result ≡ scores.bad_score_lengths hues (length ll.now) (length out.now) }
{
    ll.len() < hues || out.len() < limits::log2(hues)
}

// Whether likelihoods, their cell and the room for their scores pass. Refused: 3, 5, 7.
#[tactic(auto, unfolding(sentences::specs::Sentences::refusal, crate::specs::Score::llr_sentences))]
fn check_llrs(ll: &[f32], cell: Cell, hues: usize, out: &[f32]) -> Result<(), Refusal>
    ensures { outcome_number result ≡ refusal (scores.llr_sentences ll.now cell hues out.now) }
{
    if limits::bad_hues(hues) {
        return Err(Refusal::Hues);
    }
    if bad_score_lengths(hues, ll, out) {
        return Err(Refusal::Length);
    }
    if bad_cell_of(cell) {
        return Err(Refusal::Place);
    }
    Ok(())
}

// The log2(hues) bit scores of a chroma entry from its hue likelihoods `ll`, as drawn, high bit first and positive for a
// 0: for each bit, the best likelihood of the hues whose symbol has a 0 there less the best of those that have a 1.
// Refused: 3, 5, 7; nothing is written then.
pub fn chroma_bit_llrs(ll: &[f32], cell: Cell, hues: usize, out: &mut [f32]) -> Result<(), Refusal>
    ensures { ended result out.new ≡ scores.chroma_bit_llrs_of ll.now cell hues out.old }
{
    check_llrs(ll, cell, hues, out)?;
    bit_llrs(ll, cell, hues, out);
    Ok(())
}

// ---- unmasking
// Slices: as the C interface lends them.

// Whether the mask turns grid module i.
fn masked_at(mask: u8, modules: &Modules, i: usize) -> bool
    requires { i < modules.now.grid }
    ensures { result ≡ scores.masked_at mask modules.now.xs.now modules.now.ys.now i }
{
    let x = places::coordinate_at(modules.side, modules.xs, i);
    let y = places::coordinate_at(modules.side, modules.ys, i);
    symbols::luma_mask(mask, x, y)
}

// Turns the sign of the score of every grid module that the mask turns.
fn unmask_grid(mask: u8, modules: &Modules, luma: &mut [f32])
    requires { length modules.now.xs.now ≤ length luma.old }
    ensures { luma.new ≡ scores.unmasked mask modules.now.xs.now modules.now.ys.now modules.now.grid luma.old }
{
    for (i, score) in luma[..modules.grid].iter_mut().enumerate() {
        if masked_at(mask, modules, i) {
            *score = -*score;
        }
    }
}

// Sentence 5.
#[tactic(auto, unfolding(crate::specs::Score::bad_luma_lengths))]
fn bad_luma_lengths(xs: &[i32], ys: &[i32], luma: &[f32]) -> bool
    ensures { result ≡ scores.bad_luma_lengths (length xs.now) (length ys.now) (length luma.now) }
{
    xs.len() != ys.len() || luma.len() < xs.len()
}

// Whether luma scores and their modules pass. Refused: 2, 5, and 6, 7 by the modules' group.
#[tactic(auto, unfolding(sentences::specs::Sentences::refusal, crate::specs::Score::unmask_sentences))]
fn check_unmask(
    luma: &[f32],
    side: usize,
    xs: &[i32],
    ys: &[i32],
    grid: usize,
) -> Result<(), Refusal>
    ensures { outcome_number result ≡ refusal (scores.unmask_sentences luma.now side xs.now ys.now grid) }
{
    if limits::bad_side(side) {
        return Err(Refusal::Side);
    }
    if bad_luma_lengths(xs, ys, luma) {
        return Err(Refusal::Length);
    }
    layout::check_modules(side, grid, xs, ys)
}

// Turns the sign of the luma score of every grid module, the first `grid` of those listed, whose bit the mask turned.
// Refused: 2, 5, 6, 7; nothing is written then.
pub fn unmask_luma(
    luma: &mut [f32],
    side: usize,
    xs: &[i32],
    ys: &[i32],
    grid: usize,
    mask: u8,
) -> Result<(), Refusal>
    ensures { ended result luma.new ≡ scores.unmask_luma_of luma.old side xs.now ys.now grid mask }
{
    check_unmask(luma, side, xs, ys, grid)?;
    let modules = Modules { side, grid, xs, ys };
    unmask_grid(mask, &modules, luma);
    Ok(())
}

// ---- drawing: one element

// Whether a byte stands for the bit 1.
#[tactic(auto, unfolding(crate::specs::Draw::is_set))]
fn is_one(bit: u8) -> bool
    ensures { result ≡ drawing.is_set bit }
{
    bit != 0
}

// The level of a grid module, 1 for light: its bit, other than 0 for 1, turned where the mask turns it. Refuses
// nothing.
#[tactic(auto, unfolding(crate::specs::Draw::grid_level, crate::specs::Draw::bit_of))]
pub fn grid_level(bit: u8, mask: u8, x: u16, y: u16) -> u8
    ensures { result ≡ drawing.grid_level bit mask x y }
{
    u8::from(is_one(bit) != symbols::luma_mask(mask, x, y))
}

// The level of a ring module, 1 for light: its bit, other than 0 for 1. Refuses nothing.
#[tactic(auto, unfolding(crate::specs::Draw::ring_level, crate::specs::Draw::bit_of))]
pub fn ring_level(bit: u8) -> u8
    ensures { result ≡ drawing.ring_level bit }
{
    u8::from(is_one(bit))
}

// The symbol of `count` bits from place `from` on, high bit first.
fn symbol_at(bits: &[u8], from: usize, count: usize) -> usize
    requires { (from + count ≤ length bits.now) × (count ≤ 4) }
    ensures { result ≡ drawing.symbol_at bits.now from count }
{
    let mut symbol = 0;
    for &bit in &bits[from..from + count] {
        symbol = symbol * 2 + usize::from(is_one(bit));
    }
    symbol
}

// Whether a hue count and the bits of one symbol pass. Refused: 3, 5.
#[tactic(auto, unfolding(sentences::specs::Sentences::refusal))]
fn check_symbol(bits: &[u8], hues: usize) -> Result<(), Refusal>
    ensures { outcome_number result ≡ refusal (drawing.symbol_sentences bits.now hues) }
{
    if limits::bad_hues(hues) {
        return Err(Refusal::Hues);
    }
    if bits.len() < limits::log2(hues) {
        return Err(Refusal::Length);
    }
    Ok(())
}

// The symbol of the first log2(hues) bits, high bit first. Refused: 3, 5.
pub fn symbol_of_bits(bits: &[u8], hues: usize) -> Result<usize, Refusal>
    ensures { said result ≡ answered (drawing.symbol_sentences bits.now hues) (drawing.symbol_at bits.now 0 (log2 hues)) }
{
    check_symbol(bits, hues)?;
    Ok(symbol_at(bits, 0, limits::log2(hues)))
}

// The hue that the cell (cx, cy) is drawn in for its symbol. Refused: 3, 7.
pub fn cell_hue(symbol: usize, cx: u16, cy: u16, hues: usize) -> Result<usize, Refusal>
    ensures { said result ≡ answered (hues_and_cell hues cx cy) (drawing.cell_hue symbol cx cy hues) }
{
    symbols::check_cell(hues, cx, cy)?;
    let known = Hues { count: hues };
    Ok(known.apply(known.hue_of(symbol), cx, cy))
}

// The hue that a ring module is drawn in for its symbol: no mask lies on it. Refused: 3.
#[tactic(auto, unfolding(crate::specs::Draw::ring_hue))]
pub fn ring_hue(symbol: usize, hues: usize) -> Result<usize, Refusal>
    ensures { said result ≡ answered (hues_only hues) (drawing.ring_hue symbol hues) }
{
    symbols::chroma_symbol_to_hue(symbol, hues)
}

// ---- drawing: the whole list
// Slices: as the C interface lends them.

// What a card is drawn from: its bits, and where its modules and cells stand.
#[derive(Clone, Copy, Debug)]
struct Source<'a> {
    bits: &'a [u8],
    layout: Layout,
    xs: &'a [i32],
    ys: &'a [i32],
    cxs: &'a [u16],
    cys: &'a [u16],
    mask: u8,
}

impl Source<'_> {
    // The level of listed module i, one of the first `grid` or a ring module.
    fn level_at(&self, i: usize) -> u8
        requires { PositionAt self.now.layout.side self.now.layout.grid self.now.xs.now self.now.ys.now i × (i < length self.now.bits.now) }
        ensures { result ≡ drawing.level_at self.now.bits.now self.now.xs.now self.now.ys.now self.now.layout.grid self.now.mask i }
    {
        if i < self.layout.grid {
            let x = places::coordinate_at(self.layout.side, self.xs, i);
            let y = places::coordinate_at(self.layout.side, self.ys, i);
            grid_level(self.bits[i], self.mask, x, y)
        } else {
            ring_level(self.bits[i])
        }
    }

    // Writes the level of every listed module.
    fn draw_levels(&self, levels: &mut [u8])
        requires { Positions self.now.layout.side self.now.layout.grid self.now.xs.now self.now.ys.now × (length self.now.xs.now ≤ length self.now.bits.now) × (length self.now.xs.now ≤ length levels.old) }
        ensures { levels.new ≡ drawing.drawn_levels self.now.bits.now self.now.xs.now self.now.ys.now self.now.layout.grid self.now.mask levels.old }
    {
        for (i, level) in levels[..self.xs.len()].iter_mut().enumerate() {
            *level = self.level_at(i);
        }
    }

    // The hue at place j of the chroma list: that of a cell, or past the cells of a ring module.
    #[tactic(auto, unfolding(crate::specs::Draw::hue_at, crate::specs::Draw::cell_hue, crate::specs::Draw::ring_hue))]
    fn hue_at(&self, j: usize) -> usize
        requires { (0 < self.now.layout.hues) × (self.now.layout.hues ≤ 16) × (symbol_bits self.now.layout.hues ≤ 4) × (length self.now.xs.now + symbol_bits self.now.layout.hues * j + symbol_bits self.now.layout.hues ≤ length self.now.bits.now) × (length self.now.cxs.now ≡ length self.now.cys.now) }
        ensures { result ≡ drawing.hue_at self.now.bits.now self.now.layout.hues (length self.now.xs.now) self.now.cxs.now self.now.cys.now j }
    {
        let hues = Hues {
            count: self.layout.hues,
        };
        let q = limits::symbol_bits(hues.count);
        let symbol = symbol_at(self.bits, self.xs.len() + q * j, q);
        let hue = hues.hue_of(symbol);
        if j < self.cxs.len() {
            hues.apply(hue, self.cxs[j], self.cys[j])
        } else {
            hue
        }
    }

    // How many places the chroma list has.
    fn entries(&self) -> usize
        requires { (length self.now.xs.now ≤ 1048576) × (length self.now.cxs.now ≤ 1048576) }
        ensures { result ≡ drawing.entries_of self.now.layout (length self.now.xs.now) (length self.now.cxs.now) }
    {
        let ring = limits::ring_modules(self.xs.len(), self.layout.grid);
        limits::chroma_entries(self.cxs.len(), ring, self.layout.size)
    }

    // Writes the hue at every place of the chroma list; with chroma off nothing.
    fn draw_hues(&self, drawn: &mut [usize])
        requires { Shaped self.now.layout × (length self.now.xs.now ≤ 1048576) × (length self.now.cxs.now ≤ 1048576) × (length self.now.cxs.now ≡ length self.now.cys.now) × (drawing.short_bits (length self.now.bits.now) self.now.layout (length self.now.xs.now) (length self.now.cxs.now) ≡ false) × (drawing.short_hues (length drawn.old) self.now.layout (length self.now.xs.now) (length self.now.cxs.now) ≡ false) }
        ensures { drawn.new ≡ drawing.drawn_hues self.now.bits.now self.now.layout (length self.now.xs.now) self.now.cxs.now self.now.cys.now drawn.old }
    {
        if !limits::chroma_on(self.layout.hues) {
            return;
        }
        let count = self.entries();
        for (j, hue) in drawn[..count].iter_mut().enumerate() {
            *hue = self.hue_at(j);
        }
    }

    // Sentence 5, of the bits.
    #[tactic(auto, unfolding(crate::specs::Draw::short_bits))]
    fn short_bits(&self) -> bool
        ensures { result ≡ drawing.short_bits (length self.now.bits.now) self.now.layout (length self.now.xs.now) (length self.now.cxs.now) }
    {
        let layout = self.layout;
        let modules = self.xs.len();
        let ring = limits::ring_modules(modules, layout.grid);
        self.bits.len() < modules
            || limits::below_chroma(
                self.bits.len() - modules,
                layout.hues,
                self.cxs.len(),
                ring,
                layout.size,
            )
    }

    // Sentence 5, of the hues.
    #[tactic(auto, unfolding(crate::specs::Draw::short_hues))]
    fn short_hues(&self, drawn: &[usize]) -> bool
        ensures { result ≡ drawing.short_hues (length drawn.now) self.now.layout (length self.now.xs.now) (length self.now.cxs.now) }
    {
        let layout = self.layout;
        let ring = limits::ring_modules(self.xs.len(), layout.grid);
        limits::chroma_on(layout.hues)
            && limits::below_entries(drawn.len(), self.cxs.len(), ring, layout.size)
    }

    // Sentence 5.
    #[tactic(auto, unfolding(crate::specs::Draw::bad_draw_lengths))]
    fn bad_lengths(&self, levels: &[u8], drawn: &[usize]) -> bool
        ensures { result ≡ drawing.bad_draw_lengths self.now.bits.now self.now.layout self.now.xs.now self.now.ys.now self.now.cxs.now self.now.cys.now levels.now drawn.now }
    {
        self.xs.len() != self.ys.len()
            || self.cxs.len() != self.cys.len()
            || self.short_bits()
            || levels.len() < self.xs.len()
            || self.short_hues(drawn)
    }

    // Whether the card can be drawn into these levels and hues. Refused: 2, 3, 4 by the layout's group, 5, and 6, 7 by
    // that of what is placed on it.
    fn check(&self, levels: &[u8], drawn: &[usize]) -> Result<(), Refusal>
        ensures { outcome_number result ≡ refusal (drawing.draw_sentences (drawing.card_of self.now levels.now drawn.now)) }
    {
        layout::check_shape(self.layout)?;
        if self.bad_lengths(levels, drawn) {
            return Err(Refusal::Length);
        }
        layout::check_placement(self.layout, self.xs, self.ys, self.cxs, self.cys)
    }
}

// Draws a card: the level of each listed module, 1 for light, and, with chroma on, the hue of each cell and, at cell size
// 1, of each ring module. `bits` has one bit a module, then log2(hues) for each place of the chroma list.
// Refused: 2, 3, 4, 5, 6, 7; nothing is written then.
pub fn draw(
    bits: &[u8],
    layout: Layout,
    xs: &[i32],
    ys: &[i32],
    cxs: &[u16],
    cys: &[u16],
    mask: u8,
    levels: &mut [u8],
    drawn: &mut [usize],
) -> Result<(), Refusal>
    ensures { drawing.drawn result levels.new drawn.new ≡ drawing.draw_of (drawing.card bits.now layout xs.now ys.now cxs.now cys.now mask levels.old drawn.old) }
{
    let card = Source {
        bits,
        layout,
        xs,
        ys,
        cxs,
        cys,
        mask,
    };
    card.check(levels, drawn)?;
    card.draw_levels(levels);
    card.draw_hues(drawn);
    Ok(())
}
