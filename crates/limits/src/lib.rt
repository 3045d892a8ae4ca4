// What several calls test of the numbers that they take, each test one sentence of document 01; and the counts that
// follow from a card's numbers: the bits of a symbol and the length of the chroma score list.
#![tactic(auto)]

ghost use Rattle.std.specs.Prelude.{◌≡◌, ◌+◌, ◌^◌, ◌<◌, ltb, length};
ghost use Rattle.limits.specs.Limits.{bad_side, bad_hues, bad_cell_size, bad_modules, bad_counts, bad_cell, bad_cells};
ghost use Rattle.limits.specs.Chroma.{log2, chroma_on, weighted, symbol_bits, hue_classes, ring_modules, chroma_entries, chroma_length};

// ---- the sentences

// Core: sentence 2, the side is 0 or above 1,024.
#[tactic(auto, unfolding(crate::specs::Limits::bad_side))]
pub fn bad_side(side: usize) -> bool
    ensures { result ≡ bad_side side }
{
    side < 1 || 1024 < side
}

// Core: sentence 3, the hue count is not 1, 2, 4, 8 or 16.
#[tactic(auto, unfolding(crate::specs::Limits::bad_hues))]
pub fn bad_hues(hues: usize) -> bool
    ensures { result ≡ bad_hues hues }
{
    !matches!(hues, 1 | 2 | 4 | 8 | 16)
}

// Core: sentence 4, the chroma cell size is 0 or above 16.
#[tactic(auto, unfolding(crate::specs::Limits::bad_cell_size))]
pub fn bad_cell_size(size: usize) -> bool
    ensures { result ≡ bad_cell_size size }
{
    size < 1 || 16 < size
}

// Core: sentence 6, of modules: there are more than 1,048,576, or fewer than grid modules.
#[tactic(auto, unfolding(crate::specs::Limits::bad_modules))]
pub fn bad_modules(modules: usize, grid: usize) -> bool
    ensures { result ≡ bad_modules modules grid }
{
    1048576 < modules || modules < grid
}

// Core: sentence 6, of modules and cells: the same, or there are more than 1,048,576 cells.
#[tactic(auto, unfolding(crate::specs::Limits::bad_counts))]
pub fn bad_counts(modules: usize, grid: usize, cells: usize) -> bool
    ensures { result ≡ bad_counts modules grid cells }
{
    bad_modules(modules, grid) || 1048576 < cells
}

// Core: sentence 7, of one cell: a coordinate is above 1,023.
#[tactic(auto, unfolding(crate::specs::Limits::bad_cell))]
pub fn bad_cell(cx: u16, cy: u16) -> bool
    ensures { result ≡ bad_cell cx cy }
{
    1023 < cx || 1023 < cy
}

// Core: sentence 7, of all listed cells: one has a coordinate above 1,023.
// Slices: two lists, since the C interface lends them so.
pub fn bad_cells(cxs: &[u16], cys: &[u16]) -> bool
    requires { length cxs.now ≡ length cys.now }
    ensures { result ≡ bad_cells cxs.now cys.now }
{
    cxs.iter().zip(cys).any(|(&cx, &cy)| bad_cell(cx, cy))
}

// ---- the counts

// Core: the base-2 logarithm of n, rounded down, and 0 for 0: how often n can be halved before it is below 2.
// By hand: From has no conversion from u32 to usize.
pub fn log2(n: usize) -> usize
    ensures { result ≡ log2 n }
{
    n.checked_ilog2().unwrap_or(0) as usize
}

// Core: whether chroma is on: cells are corrected, scored, listed and drawn.
#[tactic(auto, unfolding(crate::specs::Chroma::chroma_on))]
pub fn chroma_on(hues: usize) -> bool
    ensures { result ≡ chroma_on hues }
{
    1 < hues
}

// Core: whether luma is weighted by the reliability of a module's colour.
#[tactic(auto, unfolding(crate::specs::Chroma::weighted))]
pub fn weighted(hues: usize) -> bool
    ensures { result ≡ weighted hues }
{
    1 < hues
}

// Core: the bits of a symbol: log2 of the hue count, and 0 with chroma off.
#[tactic(auto, unfolding(crate::specs::Chroma::symbol_bits))]
pub fn symbol_bits(hues: usize) -> usize
    ensures { result ≡ symbol_bits hues }
{
    if chroma_on(hues) { log2(hues) } else { 0 }
}

// Core: the classes that hues are told apart by: one a hue, and one in all with chroma off.
#[tactic(auto, unfolding(crate::specs::Chroma::hue_classes))]
pub fn hue_classes(hues: usize) -> usize
    ensures { result ≡ hue_classes hues }
{
    if chroma_on(hues) { hues } else { 1 }
}

// Core: the modules that are listed after the grid modules; none where there are fewer modules than that.
#[tactic(auto, unfolding(crate::specs::Chroma::ring_modules))]
pub fn ring_modules(modules: usize, grid: usize) -> usize
    ensures { result ≡ ring_modules modules grid }
{
    modules.saturating_sub(grid)
}

// Core: the number of places in the chroma list: one for each cell and, at cell size 1, each ring module.
#[tactic(auto, unfolding(crate::specs::Chroma::chroma_entries))]
pub fn chroma_entries(cells: usize, ring: usize, size: usize) -> usize
    requires { cells + ring < 2 ^ 64 }
    ensures { result ≡ chroma_entries cells ring size }
{
    if size == 1 { cells + ring } else { cells }
}

// Core: whether n is below the number of places in the chroma list: one for each cell and, at cell size 1, each ring module.
#[tactic(auto, unfolding(crate::specs::Chroma::chroma_entries))]
pub fn below_entries(n: usize, cells: usize, ring: usize, size: usize) -> bool
    ensures { result ≡ ltb n (chroma_entries cells ring size) }
{
    n < cells || size == 1 && n - cells < ring
}

// Core: whether n is below the length of the chroma score list: symbol_bits for each of its places.
#[tactic(auto, unfolding(crate::specs::Chroma::chroma_length))]
pub fn below_chroma(n: usize, hues: usize, cells: usize, ring: usize, size: usize) -> bool
    ensures { result ≡ ltb n (chroma_length hues cells ring size) }
{
    let bits = symbol_bits(hues);
    bits != 0 && below_entries(n / bits, cells, ring, size)
}
