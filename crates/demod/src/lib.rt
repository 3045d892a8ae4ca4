// Scoring: the Rust's `demodulate` from raw colours on, without its last call.
//
// A first use: after `fit` gave the model and `measure` the noise record, `score` corrects the raw colours of a card's
// modules and cells and writes a luma score a module, its corrected colour, and the chroma scores of the cells and, at
// cell size 1, of the ring modules. Scores are positive for a 0. It answers how many of these colours were corrected by a gain
// that was held at 0.05.
#![tactic(auto)]

ghost use Rattle.std.specs.Prelude.{◌≡◌, ◌*◌, ◌≤◌, Ok, length};
ghost use Rattle.sentences.specs.Sentences.{refusal};
ghost use Rattle.answers.specs.Answers.{outcome_number};
ghost use Rattle.color.specs.Palette.{palette_len};
ghost use Rattle.observed.specs.Colours.{module_spot, cell_spot, module_colour, cell_colour, spot_colour};
ghost use Rattle.demod.specs.Ready.{Seen, Scorable};
ghost use Rattle.demod.specs.Call as call;
ghost use Rattle.demod.specs.Call.{request, sentences_of, final, done, scored_of};

use answers::Refusal;
use color::palette::wild_in;
use illum::IlluminationModel;
use layout::{Cells, Layout};
use observed::{SeenCells, SeenModules};
use scores::{ChromaCard, Meter};
use stats::{Channel, ChannelStats};

// What `score` reports: how many modules and how many cells have a mark, a channel's gain, where they stand, being held at 0.05. A
// ring module that carries chroma is one module. With chroma off no cell is corrected, and none has a mark.
#[repr(C)]
#[derive(Clone, Copy, Debug, PartialEq, Eq)]
pub struct ScoreReport {
    pub held_modules: usize,
    pub held_cells: usize,
}

// A card as a call is handed it, before anything is known of it. Its lists are slices side by side, since the C interface lends them
// so.
#[derive(Clone, Copy, Debug)]
struct Card<'a> {
    layout: Layout,
    xs: &'a [i32],
    ys: &'a [i32],
    raw: &'a [f32],
    cxs: &'a [u16],
    cys: &'a [u16],
    craw: &'a [f32],
    palette: &'a [f32],
    model: IlluminationModel,
    noise: ChannelStats,
}

// A card's modules and cells in their places, with their colours as they were observed.
#[derive(Clone, Copy, Debug)]
struct SeenCard<'a> {
    modules: SeenModules<'a>,
    cells: SeenCells<'a>,
}

// ---- the sentences

impl SeenCard<'_> {
    // Sentence 12: of modules, and with chroma on of cells.
    #[tactic(auto, unfolding(crate::specs::Call::bad_corrected))]
    fn bad_corrected(&self, model: IlluminationModel, hues: usize) -> bool
        ensures { let m = self.now.modules in let s = self.now.cells in
            result ≡ call.bad_corrected hues (spot_colour model (module_spot m.xs.now m.ys.now m.raw.now)) (length m.xs.now) (spot_colour model (cell_spot s.size s.cells.cxs.now s.cells.cys.now s.raw.now)) (length s.cells.cxs.now) }
    {
        observed::any_wild(model, &self.modules)
            || limits::chroma_on(hues) && observed::any_wild(model, &self.cells)
    }
}

impl<'a> Card<'a> {
    // Sentence 5, of modules.
    #[tactic(auto, unfolding(crate::specs::Call::bad_module_lengths))]
    fn bad_module_lengths(&self, luma: &[f32], colours: &[f32]) -> bool
        ensures { result ≡ call.bad_module_lengths (length self.now.xs.now) (length self.now.ys.now) (length self.now.raw.now) (length luma.now) (length colours.now) }
    {
        self.xs.len() != self.ys.len()
            || self.raw.len() < 3 * self.xs.len()
            || luma.len() < self.xs.len()
            || colours.len() < 3 * self.xs.len()
    }

    // Sentence 5, of cells.
    #[tactic(auto, unfolding(crate::specs::Call::bad_cell_lengths))]
    fn bad_cell_lengths(&self) -> bool
        ensures { result ≡ call.bad_cell_lengths (length self.now.cxs.now) (length self.now.cys.now) (length self.now.craw.now) }
    {
        self.cxs.len() != self.cys.len() || self.craw.len() < 3 * self.cxs.len()
    }

    // Sentence 5, of the chroma scores.
    #[tactic(auto, unfolding(crate::specs::Call::short_chroma))]
    fn short_chroma(&self, chroma: &[f32]) -> bool
        ensures { result ≡ call.short_chroma self.now.layout (length chroma.now) (length self.now.xs.now) (length self.now.cxs.now) }
    {
        let layout = self.layout;
        let ring = limits::ring_modules(self.xs.len(), layout.grid);
        limits::below_chroma(chroma.len(), layout.hues, self.cxs.len(), ring, layout.size)
    }

    // Sentence 5.
    #[tactic(auto, unfolding(crate::specs::Call::bad_lengths))]
    fn bad_lengths(&self, luma: &[f32], colours: &[f32], chroma: &[f32]) -> bool
        ensures { let c = self.now in result ≡ call.bad_lengths c.layout c.xs.now c.ys.now c.raw.now c.cxs.now c.cys.now c.craw.now c.palette.now luma.now colours.now chroma.now }
    {
        self.bad_module_lengths(luma, colours)
            || self.bad_cell_lengths()
            || stats::short_palette(self.palette, self.layout.hues)
            || self.short_chroma(chroma)
    }

    // Sentence 8, of the raw colours of modules and cells, of the palette and of the noise record.
    #[tactic(auto, unfolding(crate::specs::Call::bad_inputs))]
    fn bad_inputs(&self) -> bool
        requires { (3 * length self.now.xs.now ≤ length self.now.raw.now) × (3 * length self.now.cxs.now ≤ length self.now.craw.now) × (palette_len self.now.layout.hues ≤ length self.now.palette.now) }
        ensures { let c = self.now in result ≡ call.bad_inputs c.raw.now (length c.xs.now) c.craw.now (length c.cxs.now) c.noise c.palette.now c.layout.hues }
    {
        wild_in(self.raw, 3 * self.xs.len())
            || wild_in(self.craw, 3 * self.cxs.len())
            || Channel::new(self.noise, self.palette, self.layout.hues).has_bad_numbers()
    }

    // Its modules and cells with their colours, where 2 to 7 are passed.
    #[tactic(auto, using(observed::proofs::Places::sampled))]
    fn seen(&self) -> SeenCard<'a>
        requires { let c = self.now in Seen c.layout c.xs.now c.ys.now c.raw.now c.cxs.now c.cys.now c.craw.now }
        ensures modules { let m = result.modules in (m.xs.now ≡ self.now.xs.now) × (m.ys.now ≡ self.now.ys.now) × (m.raw.now ≡ self.now.raw.now) }
        ensures cells { let s = result.cells in (s.size ≡ self.now.layout.size) × (s.cells.cxs.now ≡ self.now.cxs.now) × (s.cells.cys.now ≡ self.now.cys.now) × (s.raw.now ≡ self.now.craw.now) }
    {
        SeenCard {
            modules: SeenModules {
                xs: self.xs,
                ys: self.ys,
                raw: self.raw,
            },
            cells: SeenCells {
                size: self.layout.size,
                cells: Cells::new(self.cxs, self.cys),
                raw: self.craw,
            },
        }
    }

    // Sentence 12.
    #[tactic(auto, using(crate::proofs::Wild::bad_seen))]
    fn bad_corrected(&self) -> bool
        requires { let c = self.now in Seen c.layout c.xs.now c.ys.now c.raw.now c.cxs.now c.cys.now c.craw.now }
        ensures { let c = self.now in result ≡ call.bad_corrected c.layout.hues (module_colour c.model c.xs.now c.ys.now c.raw.now) (length c.xs.now) (cell_colour c.model c.layout.size c.cxs.now c.cys.now c.craw.now) (length c.cxs.now) }
    {
        self.seen().bad_corrected(self.model, self.layout.hues)
    }

    // Whether it passes, to be scored into these lists. Refused: 2, 3, 4, 5, 6, 7, 8, 9, 10, 12.
    fn check(&self, luma: &[f32], colours: &[f32], chroma: &[f32]) -> Result<(), Refusal>
        ensures { let c = self.now in outcome_number result ≡ refusal (sentences_of (request c.layout c.xs.now c.ys.now c.raw.now c.cxs.now c.cys.now c.craw.now c.palette.now c.model c.noise luma.now colours.now chroma.now)) }
    {
        layout::check_shape(self.layout)?;
        if self.bad_lengths(luma, colours, chroma) {
            return Err(Refusal::Length);
        }
        layout::check_placement(self.layout, self.xs, self.ys, self.cxs, self.cys)?;
        if self.bad_inputs() {
            return Err(Refusal::Number);
        }
        if stats::bad_sigmas(self.noise) {
            return Err(Refusal::Sigma);
        }
        if illum::bad_model(self.model) {
            return Err(Refusal::Model);
        }
        if self.bad_corrected() {
            return Err(Refusal::Corrected);
        }
        Ok(())
    }
}

// ---- the call
// Slices: as the C interface lends them.

impl Card<'_> {
    // Writes what an accepted call writes: the modules' colours and luma scores, and then the chroma scores. Says what the call reports.
    fn write_scores(&self, luma: &mut [f32], colours: &mut [f32], chroma: &mut [f32]) -> ScoreReport
        requires { let c = self.now in Scorable c.layout c.xs.now c.ys.now c.raw.now c.cxs.now c.cys.now c.craw.now c.palette.now luma.old colours.old chroma.old }
        ensures { let c = self.now in final (Ok result) luma.new colours.new chroma.new ≡ done (request c.layout c.xs.now c.ys.now c.raw.now c.cxs.now c.cys.now c.craw.now c.palette.now c.model c.noise luma.old colours.old chroma.old) }
    {
        let meter = Meter::new(Channel::new(self.noise, self.palette, self.layout.hues));
        let seen = self.seen();
        let held_modules = meter.write_modules(self.model, &seen.modules, luma, colours);
        let card = ChromaCard {
            meter,
            seen: seen.cells,
            side: self.layout.side,
            grid: self.layout.grid,
            modules: self.xs.len(),
            colours,
        };
        let held_cells = card.write(self.model, chroma);
        ScoreReport {
            held_modules,
            held_cells,
        }
    }
}

// Scores a card. `xs` and `ys` are its modules' positions, the first `grid` of them grid modules and the others ring
// modules; `cxs` and `cys` its cells' coordinates; `raw` and `craw` hold three linear components a module and a cell.
// Writes a luma score a module, three components of its corrected colour, and, with chroma on, log2(hues) scores a cell
// and then, at cell size 1, a ring module. Reports how many modules and how many cells have a mark, each counted once. Refused: 2,
// 3, 4, 5, 6, 7, 8, 9, 10, 12.
// Slices: the C interface lends them so.
pub fn score(
    layout: Layout,
    xs: &[i32],
    ys: &[i32],
    raw: &[f32],
    cxs: &[u16],
    cys: &[u16],
    craw: &[f32],
    palette: &[f32],
    model: IlluminationModel,
    noise: ChannelStats,
    luma: &mut [f32],
    colours: &mut [f32],
    chroma: &mut [f32],
) -> Result<ScoreReport, Refusal>
    ensures { final result luma.new colours.new chroma.new ≡ scored_of (request layout xs.now ys.now raw.now cxs.now cys.now craw.now palette.now model noise luma.old colours.old chroma.old) }
{
    let card = Card {
        layout,
        xs,
        ys,
        raw,
        cxs,
        cys,
        craw,
        palette,
        model,
        noise,
    };
    card.check(luma, colours, chroma)?;
    Ok(card.write_scores(luma, colours, chroma))
}
