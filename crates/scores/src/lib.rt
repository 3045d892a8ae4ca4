// The scores of corrected colours, as scoring writes them: a luma score a module, and the bits' scores of each cell and of
// each ring module that carries chroma. `demod` is the public call.
#![tactic(auto)]

ghost use Rattle.std.specs.Prelude.{◌≡◌, true, false, ◌+◌, ◌-◌, ◌*◌, ◌<◌, ◌≤◌, length};
ghost use Rattle.limits.specs.Limits.{bad_hues};
ghost use Rattle.limits.specs.Chroma.{weighted, symbol_bits, chroma_length, ring_modules};
ghost use Rattle.color.specs.Color.{linear_to_lab};
ghost use Rattle.color.specs.Palette.{linear_at};
ghost use Rattle.observed.specs.Colours as colour;
ghost use Rattle.scores.specs.Score as spec;
ghost use Rattle.scores.specs.Score.{sheet};
ghost use Rattle.scores.specs.Ready.{layout_of};

use color::{Lab, Linear, Xyz, linear_to_xyz, xyz_to_lab};
use illum::IlluminationModel;
use modulate::Cell;
use observed::{SeenCells, SeenModules};
pub use samples::Meter;
use samples::{Colours, Samples};
use stats::ChannelStats;

mod samples;

// Facts: that a block has at most 16 colours and ends in their list, and that there is room for a luma score a colour, is one
// comparison of two numbers each; a struct with the fact would be made where the comparison stands, and be no shorter.

// ---- luma

// A score, weighed by the reliability of its sample.
#[tactic(auto, unfolding(crate::specs::Score::weighed))]
fn weigh(llr: f32, weight: f32) -> f32
    ensures { result ≡ spec.weighed llr weight }
{
    llr * weight
}

// The lightness of a colour. It is that of its Y alone, so no cube root is taken of X or Z.
#[tactic(auto, using(crate::proofs::Parts::by_y))]
fn lightness(c: Linear) -> f32
    ensures { result ≡ (linear_to_lab c).l }
{
    let q = linear_to_xyz(c);
    let lab = xyz_to_lab(Xyz {
        x: 0.0,
        y: q.y,
        z: 0.0,
    });
    lab.l
}

// Writes the luma scores of modules, not weighted.
fn plain_lumas(noise: ChannelStats, colours: &Colours, luma: &mut [f32])
    requires { colours.now.n ≤ length luma.old }
    ensures { luma.new ≡ spec.plain_lumas noise (linear_at colours.now.numbers.now) colours.now.n luma.old }
{
    for (i, score) in luma[..colours.n].iter_mut().enumerate() {
        *score = noise.luma_llr_of(lightness(colours.at(i)));
    }
}

impl Samples {
    // Writes the luma scores of the modules from `from` on, one a sample.
    fn put_lumas(&self, noise: ChannelStats, from: usize, luma: &mut [f32])
        requires { from + self.now.n ≤ length luma.old }
        ensures { luma.new ≡ spec.put_lumas noise self.now.labs self.now.weights from self.now.n luma.old }
    {
        for (j, lab) in self.labs[..self.n].iter().enumerate() {
            let llr = noise.luma_llr_of(lab.l);
            luma[from + j] = weigh(llr, self.weights[j]);
        }
    }
}

impl Meter<'_> {
    // The luma scores of a block of modules.
    fn luma_block(&self, colours: &Colours, from: usize, n: usize, luma: &mut [f32])
        requires { (weighted self.now.channel.palette.hues ≡ true) × (n ≤ 16) × (from + n ≤ colours.now.n) × (from + n ≤ length luma.old) }
        ensures { luma.new ≡ spec.luma_block self.now.channel.noise self.now.channel.palette.numbers.now self.now.channel.palette.hues (linear_at colours.now.numbers.now) from n luma.old }
    {
        Samples::of(self, colours, from, n).put_lumas(self.channel.noise, from, luma);
    }

    // Writes the luma scores of modules, each weighted by the reliability of its colour.
    fn weighted_lumas(&self, colours: &Colours, luma: &mut [f32])
        requires { (weighted self.now.channel.palette.hues ≡ true) × (colours.now.n ≤ length luma.old) }
        ensures { luma.new ≡ spec.write_lumas self.now.channel.noise self.now.channel.palette.numbers.now self.now.channel.palette.hues (linear_at colours.now.numbers.now) colours.now.n luma.old }
    {
        // By index: a block is known by the place of its first colour.
        for from in (0..colours.n).step_by(16) {
            self.luma_block(colours, from, usize::min(16, colours.n - from), luma);
        }
    }

    // Writes the luma scores of modules.
    #[tactic(auto, using(crate::proofs::Parts::plain))]
    fn write_lumas(&self, colours: &Colours, luma: &mut [f32])
        requires { colours.now.n ≤ length luma.old }
        ensures { luma.new ≡ spec.write_lumas self.now.channel.noise self.now.channel.palette.numbers.now self.now.channel.palette.hues (linear_at colours.now.numbers.now) colours.now.n luma.old }
    {
        if limits::weighted(self.channel.palette.hues) {
            self.weighted_lumas(colours, luma);
        } else {
            plain_lumas(self.channel.noise, colours, luma);
        }
    }

    // Core: writes the corrected colour and the luma score of every module, and says how many modules have a mark.
    pub fn write_modules(
        &self,
        model: IlluminationModel,
        seen: &SeenModules,
        luma: &mut [f32],
        colours: &mut [f32],
    ) -> usize
        requires { (length seen.now.xs.now ≤ length luma.old) × (3 * length seen.now.xs.now ≤ length colours.old) }
        ensures { let m = seen.now in
            (sheet luma.new colours.new ≡ spec.write_modules self.now.channel.noise self.now.channel.palette.numbers.now self.now.channel.palette.hues (colour.module_colour model m.xs.now m.ys.now m.raw.now) (length m.xs.now) (sheet luma.old colours.old))
            × (result ≡ colour.held_module_count model m.xs.now m.ys.now (length m.xs.now)) }
    {
        let n = seen.xs.len();
        let held = observed::correct(model, seen, 0, n, 0, colours);
        let all = Colours {
            numbers: colours,
            n,
        };
        self.write_lumas(&all, luma);
        held
    }
}

// ---- chroma

// A bit's score, weighed and held to ±20.
#[tactic(auto, using(color::proofs::Numbers::n20), unfolding(crate::specs::Score::chroma_score))]
fn chroma_score(v: f32, weight: f32) -> f32
    ensures { result ≡ spec.chroma_score v weight }
{
    float::clamp(weigh(v, weight), -20.0, 20.0)
}

// Writes the scores of n bits at the places from `at` on.
fn put_scores(bits: &[f32], weight: f32, n: usize, at: usize, chroma: &mut [f32])
    requires { (n ≤ length bits.now) × (at + n ≤ length chroma.old) }
    ensures { chroma.new ≡ spec.put_scores bits.now weight n at chroma.old }
{
    for (b, &bit) in bits[..n].iter().enumerate() {
        chroma[at + b] = chroma_score(bit, weight);
    }
}

impl Meter<'_> {
    // Writes the scores of entry e of the chroma list, of a sample and its weight.
    #[tactic(auto, using(crate::proofs::Chroma::few, crate::proofs::Chroma::short, crate::proofs::Chroma::room, crate::proofs::Chroma::bits_room, crate::proofs::Chroma::entry_in))]
    fn write_entry(&self, cell: Cell, lab: Lab, weight: f32, e: usize, chroma: &mut [f32])
        requires { (bad_hues self.now.channel.palette.hues ≡ false) × (e * symbol_bits self.now.channel.palette.hues + symbol_bits self.now.channel.palette.hues ≤ length chroma.old) }
        ensures { chroma.new ≡ spec.write_sample self.now.channel.noise self.now.channel.palette.numbers.now self.now.channel.palette.hues cell lab weight e chroma.old }
    {
        let hues = self.channel.palette.hues;
        let mut ll = [0.0f32; 16];
        self.channel.hue_log_likelihoods_of(lab, &mut ll);
        let mut bits = [0.0f32; 4];
        modulate::bit_llrs(&ll, cell, hues, &mut bits);
        let n = limits::symbol_bits(hues);
        put_scores(&bits, weight, n, e * n, chroma);
    }
}

// A card whose chroma is scored: its side, its cells as they were observed, and the corrected colours of its modules,
// the first `grid` of which are grid modules. Its hue count passes sentence 3, and it has at most 1,048,576 cells and
// modules.
#[derive(Clone, Copy, Debug)]
pub struct ChromaCard<'a> {
    pub meter: Meter<'a>,
    pub seen: SeenCells<'a>,
    pub side: usize,
    pub grid: usize,
    pub modules: usize,
    pub colours: &'a [f32],
    ghost hues_good: { bad_hues meter.channel.palette.hues ≡ false },
    ghost few_cells: { length seen.cells.cxs.now ≤ 1048576 },
    ghost counted: { (grid ≤ modules) × (modules ≤ 1048576) },
    ghost three: { 3 * modules ≤ length colours.now },
}

impl ChromaCard<'_> {
    // Where entry e is drawn: on cell e, or past the cells on a ring module, on which no mask lies.
    #[tactic(auto, using(crate::proofs::Chroma::on_cell, crate::proofs::Chroma::on_ring))]
    fn drawn_at(&self, e: usize) -> Cell
        ensures { result ≡ spec.drawn_at self.now.seen.cells.cxs.now self.now.seen.cells.cys.now e }
    {
        let cells = self.seen.cells;
        if e < cells.cxs.len() {
            return Cell::At(cells.cxs[e], cells.cys[e]);
        }
        Cell::Unmasked
    }

    // Writes the scores of the entries from `first` on, one a sample.
    fn put_entries(&self, samples: &Samples, first: usize, chroma: &mut [f32])
        requires { (first + samples.now.n ≤ 2097152) × ((first + samples.now.n) * symbol_bits self.now.meter.channel.palette.hues ≤ length chroma.old) }
        ensures { let c = self.now.meter.channel in let s = self.now.seen.cells in
            chroma.new ≡ spec.put_entries c.noise c.palette.numbers.now c.palette.hues s.cxs.now s.cys.now samples.now.labs samples.now.weights first samples.now.n chroma.old }
    {
        for (j, &lab) in samples.labs[..samples.n].iter().enumerate() {
            let e = first + j;
            self.meter
                .write_entry(self.drawn_at(e), lab, samples.weights[j], e, chroma);
        }
    }

    // The chroma scores of a block of cells. `held` of the cells before have a mark; says how many have one with these.
    fn cell_block(
        &self,
        model: IlluminationModel,
        from: usize,
        n: usize,
        held: usize,
        chroma: &mut [f32],
    ) -> usize
        requires { (n ≤ 16) × (held ≤ from) × (from + n ≤ length self.now.seen.cells.cxs.now) × ((from + n) * symbol_bits self.now.meter.channel.palette.hues ≤ length chroma.old) }
        ensures { let c = self.now.meter.channel in let s = self.now.seen in
            (chroma.new ≡ spec.cell_block c.noise c.palette.numbers.now c.palette.hues s.cells.cxs.now s.cells.cys.now (colour.cell_colour model s.size s.cells.cxs.now s.cells.cys.now s.raw.now) from n chroma.old)
            × (result ≡ colour.held_onwards model s.size s.cells.cxs.now s.cells.cys.now from n held) × (result ≤ from + n) }
    {
        let mut room = [0.0f32; 48];
        let after = observed::correct(model, &self.seen, from, n, held, &mut room);
        let corrected = Colours { numbers: &room, n };
        self.put_entries(&Samples::of(&self.meter, &corrected, 0, n), from, chroma);
        after
    }

    // The chroma scores of all cells. Says how many cells have a mark.
    fn write_cells(&self, model: IlluminationModel, chroma: &mut [f32]) -> usize
        requires { length self.now.seen.cells.cxs.now * symbol_bits self.now.meter.channel.palette.hues ≤ length chroma.old }
        ensures { let c = self.now.meter.channel in let s = self.now.seen in
            (chroma.new ≡ spec.write_cells c.noise c.palette.numbers.now c.palette.hues s.cells.cxs.now s.cells.cys.now (colour.cell_colour model s.size s.cells.cxs.now s.cells.cys.now s.raw.now) (length s.cells.cxs.now) chroma.old)
            × (result ≡ colour.held_cells model s.size s.cells.cxs.now s.cells.cys.now (length s.cells.cxs.now)) }
    {
        let n = self.seen.cells.len();
        let mut held = 0;
        // By index: a block is known by the place of its first colour.
        for from in (0..n).step_by(16) {
            held = self.cell_block(model, from, usize::min(16, n - from), held, chroma);
        }
        held
    }

    // The chroma scores of a block of ring modules.
    fn ring_block(&self, from: usize, n: usize, chroma: &mut [f32])
        requires { (n ≤ 16) × (self.now.grid ≤ from) × (from + n ≤ self.now.modules) × ((length self.now.seen.cells.cxs.now + (from + n - self.now.grid)) * symbol_bits self.now.meter.channel.palette.hues ≤ length chroma.old) }
        ensures { let c = self.now.meter.channel in
            chroma.new ≡ spec.ring_block c.noise c.palette.numbers.now c.palette.hues (length self.now.seen.cells.cxs.now) self.now.grid (linear_at self.now.colours.now) from n chroma.old }
    {
        let first = self.seen.cells.len() + (from - self.grid);
        let colours = Colours {
            numbers: self.colours,
            n: self.modules,
        };
        self.put_entries(&Samples::of(&self.meter, &colours, from, n), first, chroma);
    }

    // The chroma scores of the ring modules, those that are listed after the grid modules.
    fn write_rings(&self, chroma: &mut [f32])
        requires { (length self.now.seen.cells.cxs.now + (self.now.modules - self.now.grid)) * symbol_bits self.now.meter.channel.palette.hues ≤ length chroma.old }
        ensures { let c = self.now.meter.channel in
            chroma.new ≡ spec.write_rings c.noise c.palette.numbers.now c.palette.hues (length self.now.seen.cells.cxs.now) self.now.grid (linear_at self.now.colours.now) self.now.modules chroma.old }
    {
        let m = self.modules;
        // By index: a block is known by the place of its first colour.
        for from in (self.grid..m).step_by(16) {
            self.ring_block(from, usize::min(16, m - from), chroma);
        }
    }

    // The chroma scores of ring modules, which carry chroma only at cell size 1.
    #[tactic(auto, using(crate::proofs::Parts::rings, crate::proofs::Parts::no_rings))]
    fn ring_chroma(&self, chroma: &mut [f32])
        requires { chroma_length self.now.meter.channel.palette.hues (length self.now.seen.cells.cxs.now) (ring_modules self.now.modules self.now.grid) self.now.seen.size ≤ length chroma.old }
        ensures { let c = self.now.meter.channel in
            chroma.new ≡ spec.ring_chroma (layout_of self.now.side c.palette.hues self.now.seen.size self.now.grid) c.noise c.palette.numbers.now (length self.now.seen.cells.cxs.now) (linear_at self.now.colours.now) self.now.modules chroma.old }
    {
        if self.seen.size == 1 {
            self.write_rings(chroma);
        }
    }

    // Core: the chroma scores: with chroma on those of the cells, then those of the ring modules.
    // Says how many cells have a mark: none with chroma off, where they are not corrected. Ring modules were counted with the modules.
    #[tactic(auto, using(crate::proofs::Parts::chroma_scored, crate::proofs::Parts::cells_marked, crate::proofs::Parts::chroma_off, crate::proofs::Parts::none_marked))]
    pub fn write(&self, model: IlluminationModel, chroma: &mut [f32]) -> usize
        requires { chroma_length self.now.meter.channel.palette.hues (length self.now.seen.cells.cxs.now) (ring_modules self.now.modules self.now.grid) self.now.seen.size ≤ length chroma.old }
        ensures { let c = self.now.meter.channel in let s = self.now.seen in let l = layout_of self.now.side c.palette.hues s.size self.now.grid in
            (chroma.new ≡ spec.chroma_written l c.noise c.palette.numbers.now (linear_at self.now.colours.now) self.now.modules s.cells.cxs.now s.cells.cys.now (colour.cell_colour model s.size s.cells.cxs.now s.cells.cys.now s.raw.now) chroma.old)
            × (result ≡ spec.chroma_held l model s.cells.cxs.now s.cells.cys.now) }
    {
        if limits::chroma_on(self.meter.channel.palette.hues) {
            let held = self.write_cells(model, chroma);
            self.ring_chroma(chroma);
            return held;
        }
        0
    }
}
