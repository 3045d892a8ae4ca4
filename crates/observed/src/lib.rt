// The colours of a card's modules and cells: where each stands, how it was observed, and the colour corrected. `demod`, which
// scores a card, looks with it for colours that break sentence 12 and then writes the corrected ones, counting those that have a
// mark. Modules and cells differ in where a colour stands, and in nothing else: both are `Spots`.
#![tactic(auto)]

ghost use Rattle.std.specs.Prelude.{◌≡◌, ℕ, ◌+◌, ◌*◌, ◌<◌, ◌≤◌, T, length};
ghost use Rattle.std.specs.Float.{binary32};
ghost use Rattle.std.specs.Float.Ieee.{in_float};
ghost use Rattle.illum.specs.Correct.{rounded};
ghost use Rattle.illum.specs.declared.Spot.{Spot};
ghost use Rattle.observed.specs.Entries as entry;
ghost use Rattle.observed.specs.Entries.{onwards};
ghost use Rattle.observed.specs.Colours as spec;
ghost use Rattle.observed.specs.Ready.{Sampled};

use color::palette::linear_at;
use illum::{Corrector, IlluminationModel, Spot, Unrounded};
use layout::Cells;

// ---- a colour as it was observed

// Core: colours that were observed, each at its spot.
pub trait Spots {
    ghost count: { Self → ℕ };

    ghost spots: { Self → ℕ → Spot };

    // How many there are.
    fn len(&self) -> usize
        ensures { result ≡ count self.now };

    // The spot of colour i.
    fn spot(&self, i: usize) -> Spot
        requires { i < count self.now }
        ensures { result ≡ spots self.now i };
}

// The centre of a module.
#[tactic(auto, using(crate::proofs::Literals::half), unfolding(crate::specs::Colours::centre))]
fn centre(v: i32) -> f32
    requires { T (in_float binary32 v) }
    ensures { result ≡ spec.centre v }
{
    v as f32 + 0.5
}

// The centre of a cell of size by size modules.
#[tactic(auto, using(color::proofs::Numbers::n2, crate::proofs::Places::size_in), unfolding(crate::specs::Colours::cell_centre))]
fn cell_centre(size: usize, cx: u16) -> f32
    requires { size ≤ 16 }
    ensures { result ≡ spec.cell_centre size cx }
{
    f32::from(cx) * size as f32 + size as f32 / 2.0
}

// A card's modules with their colours, three numbers each, as they were observed. Positions are two lists, since the C
// interface lends them so.
#[derive(Clone, Copy, Debug)]
pub struct SeenModules<'a> {
    pub xs: &'a [i32],
    pub ys: &'a [i32],
    pub raw: &'a [f32],
    ghost sampled: { Sampled xs.now ys.now raw.now },
}

// A module's colour stands at its centre.
impl Spots for SeenModules<'_> {
    ghost count = { λ m. length m.xs.now };

    ghost spots = { λ m. spec.module_spot m.xs.now m.ys.now m.raw.now };

    fn len(&self) -> usize {
        self.xs.len()
    }

    #[tactic(auto, using(crate::proofs::Places::exact_x, crate::proofs::Places::exact_y), unfolding(crate::specs::Colours::module_spot))]
    fn spot(&self, i: usize) -> Spot {
        Spot {
            x: centre(self.xs[i]),
            y: centre(self.ys[i]),
            colour: linear_at(self.raw, i),
        }
    }
}

// A card's cells of size by size modules with their colours, three numbers each, as they were observed.
#[derive(Clone, Copy, Debug)]
pub struct SeenCells<'a> {
    pub size: usize,
    pub cells: Cells<'a>,
    pub raw: &'a [f32],
    ghost size_most: { size ≤ 16 },
    ghost three: { 3 * length cells.cxs.now ≤ length raw.now },
}

// A cell's colour stands at its centre.
impl Spots for SeenCells<'_> {
    ghost count = { λ c. length c.cells.cxs.now };

    ghost spots = { λ c. spec.cell_spot c.size c.cells.cxs.now c.cells.cys.now c.raw.now };

    fn len(&self) -> usize {
        self.cells.len()
    }

    #[tactic(auto, unfolding(crate::specs::Colours::cell_spot))]
    fn spot(&self, i: usize) -> Spot {
        Spot {
            x: cell_centre(self.size, self.cells.cxs[i]),
            y: cell_centre(self.size, self.cells.cys[i]),
            colour: linear_at(self.raw, i),
        }
    }
}

// ---- the corrected colours

// Core: writes three numbers at the places of entry i.
pub fn put_three(l: &mut [f32], i: usize, x: f32, y: f32, z: f32)
    requires { 3 * i + 2 < length l.old }
    ensures { l.new ≡ entry.put_three l.old i x y z }
{
    l[3 * i] = x;
    l[3 * i + 1] = y;
    l[3 * i + 2] = z;
}

// A corrected colour, rounded to f32, at the places of entry i.
#[tactic(auto, unfolding(illum::specs::Correct::rounded))]
fn put_rows(l: &mut [f32], i: usize, v: Unrounded)
    requires { 3 * i + 2 < length l.old }
    ensures { l.new ≡ spec.put_colour l.old i (rounded v) }
{
    put_three(
        l,
        i,
        float::narrow(v.r),
        float::narrow(v.g),
        float::narrow(v.b),
    );
}

// Core: writes the corrected colours of the n spots from `from` on to the front of `colours`, three numbers each. `held` of the
// spots before have a mark; says how many have one with these. (All colours first and the scores after take less time than both in
// one loop.)
// By index: a corrected colour is three numbers of a flat list that C lends, and no element of it.
pub fn correct<S: Spots>(
    model: IlluminationModel,
    seen: &S,
    from: usize,
    n: usize,
    held: usize,
    colours: &mut [f32],
) -> usize
    requires { (held ≤ from) × (from + n ≤ S.count seen.now) × (from + n ≤ 0xffff_ffff_ffff_ffff) × (3 * n ≤ length colours.old) }
    ensures { (colours.new ≡ spec.write_colours (onwards (spec.spot_colour model (S.spots seen.now)) from) n colours.old) × (result ≡ spec.held_from model (S.spots seen.now) from n held) × (result ≤ from + n) }
{
    let mut k = held;
    for j in 0..n {
        let s = seen.spot(from + j);
        let d = illum::unshade(model, s);
        k = illum::count_held(d, k);
        put_rows(colours, j, illum::rows(model, d));
    }
    k
}

// ---- sentence 12

// Core: sentence 12: a corrected colour is wild.
// By index: no list holds spots, and of `any` over places no proof closes where the test calls a method of S.
pub fn any_wild<S: Spots>(model: IlluminationModel, seen: &S) -> bool
    ensures { result ≡ spec.wild_colours (spec.spot_colour model (S.spots seen.now)) (S.count seen.now) }
{
    let corrector = Corrector::new(&model);
    for i in 0..seen.len() {
        if corrector.breaks(seen.spot(i)) {
            return true;
        }
    }
    false
}
