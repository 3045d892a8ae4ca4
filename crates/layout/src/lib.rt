// The layout of a card, and the refusals that every call on a layout or on a card's modules shares, as groups: the layout
// by itself (2, 3, 4), the modules and cells that are placed on it (6, 7), and modules alone, for calls that take no
// cells (6, 7).
//
// A group is a list of sentences (specs/Groups.antt), which a call's own list is joined from by `++`; a function that
// answers the refusal of its first sentence that holds; and a record of what holds where it is passed. The ruleset
// `layouts` (proofs/Laws.antt) proves a call's `refused` over groups and sentences of its own, one test for each.
//
// Slices: coordinates come as two lists, since the C interface lends them so; a call that was not refused makes `Modules`
// and `Cells` of them.
#![tactic(auto)]

ghost use Rattle.std.specs.Prelude.{◌≡◌, ◌*◌, ◌+◌, ◌<◌, ◌≤◌, eqb, pos, length, get_or};
ghost use Rattle.sentences.specs.Sentences.{refusal};
ghost use Rattle.answers.specs.Answers.{outcome_number};
ghost use Rattle.places.specs.Places.{index_of, off_grid};
ghost use Rattle.layout.specs.Groups.{Shaped, Paired, Positions, shape, placement, module_placement, bad_positions};

use answers::Refusal;

// A card's side in modules, its hue count, the size of its chroma cells in modules, and how many of its listed modules
// are grid modules. Any numbers: the calls that take a layout refuse those that are none.
#[repr(C)]
#[derive(Clone, Copy, Debug)]
pub struct Layout {
    pub side: usize,
    pub hues: usize,
    pub size: usize,
    pub grid: usize,
}

// Core: whether a layout by itself passes. Refused: 2, 3, 4.
#[tactic(auto, unfolding(sentences::specs::Sentences::refusal, crate::specs::Groups::shape))]
pub fn check_shape(layout: Layout) -> Result<(), Refusal>
    ensures { outcome_number result ≡ refusal (shape layout) }
{
    if limits::bad_side(layout.side) {
        return Err(Refusal::Side);
    }
    if limits::bad_hues(layout.hues) {
        return Err(Refusal::Hues);
    }
    if limits::bad_cell_size(layout.size) {
        return Err(Refusal::CellSize);
    }
    Ok(())
}

// Sentence 7, of modules and cells.
#[tactic(auto, unfolding(crate::specs::Groups::bad_positions))]
fn bad_positions(layout: Layout, xs: &[i32], ys: &[i32], cxs: &[u16], cys: &[u16]) -> bool
    requires { Shaped layout × Paired xs.now ys.now cxs.now cys.now }
    ensures { result ≡ bad_positions layout xs.now ys.now cxs.now cys.now }
{
    places::bad_places(layout.side, layout.grid, xs, ys) || limits::bad_cells(cxs, cys)
}

// Core: whether the modules and cells that are placed on a layout pass. Refused: 6, 7.
#[tactic(auto, unfolding(sentences::specs::Sentences::refusal, crate::specs::Groups::placement))]
pub fn check_placement(
    layout: Layout,
    xs: &[i32],
    ys: &[i32],
    cxs: &[u16],
    cys: &[u16],
) -> Result<(), Refusal>
    requires { Shaped layout × Paired xs.now ys.now cxs.now cys.now }
    ensures { outcome_number result ≡ refusal (placement layout xs.now ys.now cxs.now cys.now) }
{
    if limits::bad_counts(xs.len(), layout.grid, cxs.len()) {
        return Err(Refusal::Count);
    }
    if bad_positions(layout, xs, ys, cxs, cys) {
        return Err(Refusal::Place);
    }
    Ok(())
}

// Core: whether modules alone pass, of which the first `grid` are grid modules. Refused: 6, 7.
#[tactic(auto, unfolding(sentences::specs::Sentences::refusal, crate::specs::Groups::module_placement))]
pub fn check_modules(side: usize, grid: usize, xs: &[i32], ys: &[i32]) -> Result<(), Refusal>
    requires { (side ≤ 1024) × (length xs.now ≡ length ys.now) }
    ensures { outcome_number result ≡ refusal (module_placement side grid xs.now ys.now) }
{
    if limits::bad_modules(xs.len(), grid) {
        return Err(Refusal::Count);
    }
    if places::bad_places(side, grid, xs, ys) {
        return Err(Refusal::Place);
    }
    Ok(())
}

// ---- what the functions behind the calls take

// The listed modules of a card, the first `grid` of which are grid modules: they pass sentences 6 and 7. Their coordinates are two
// lists, since the C interface lends them so.
#[derive(Clone, Copy, Debug)]
pub struct Modules<'a> {
    pub side: usize,
    pub grid: usize,
    pub xs: &'a [i32],
    pub ys: &'a [i32],
    ghost placed: { Positions side grid xs.now ys.now },
    ghost counted: { (grid ≤ length xs.now) × (length xs.now ≤ 1048576) },
}

impl<'a> Modules<'a> {
    // Core: modules that pass.
    pub fn new(side: usize, grid: usize, xs: &'a [i32], ys: &'a [i32]) -> Modules<'a>
        requires { Positions side grid xs.now ys.now × (grid ≤ length xs.now) × (length xs.now ≤ 1048576) }
        ensures { (result.side ≡ side) × (result.grid ≡ grid) × (result.xs.now ≡ xs.now) × (result.ys.now ≡ ys.now) }
    {
        Modules { side, grid, xs, ys }
    }

    // Core: how many there are.
    pub fn len(&self) -> usize
        ensures { result ≡ length self.now.xs.now }
    {
        self.xs.len()
    }

    // Core: whether there is none.
    pub fn is_empty(&self) -> bool
        ensures { result ≡ eqb (length self.now.xs.now) 0 }
    {
        self.xs.len() == 0
    }

    // Core: the place of module i in the grid of side + 12 by side + 12 whose first square is (-6, -6).
    pub fn index_at(&self, i: usize) -> usize
        requires { i < length self.now.xs.now }
        ensures { (result ≡ index_of self.now.side (get_or self.now.xs.now i (pos 0)) (get_or self.now.ys.now i (pos 0))) × (result < (self.now.side + 12) * (self.now.side + 12)) }
    {
        places::index_at(self.side, self.grid, self.xs, self.ys, i)
    }

    // Core: whether module i stands outside the grid, as a ring module may.
    pub fn off_grid_at(&self, i: usize) -> bool
        requires { i < length self.now.xs.now }
        ensures { result ≡ off_grid self.now.side (get_or self.now.xs.now i (pos 0)) (get_or self.now.ys.now i (pos 0)) }
    {
        places::off_grid_at(self.side, self.xs, self.ys, i)
    }
}

// The coordinates of a card's cells, which run in pairs.
#[derive(Clone, Copy, Debug)]
pub struct Cells<'a> {
    pub cxs: &'a [u16],
    pub cys: &'a [u16],
    ghost pairs: { length cxs.now ≡ length cys.now },
}

impl<'a> Cells<'a> {
    // Core: cells of two lists of one length.
    pub fn new(cxs: &'a [u16], cys: &'a [u16]) -> Cells<'a>
        requires { length cxs.now ≡ length cys.now }
        ensures { (result.cxs.now ≡ cxs.now) × (result.cys.now ≡ cys.now) }
    {
        Cells { cxs, cys }
    }

    // Core: how many there are.
    pub fn len(&self) -> usize
        ensures { result ≡ length self.now.cxs.now }
    {
        self.cxs.len()
    }

    // Core: whether there is none.
    pub fn is_empty(&self) -> bool
        ensures { result ≡ eqb (length self.now.cxs.now) 0 }
    {
        self.cxs.len() == 0
    }
}
