// One pass's equations of the fit (illum.rs, `fit_once`): the gain and flare surfaces of each channel, then the affine part over
// the de-shaded observations. The rows of live references go into one matrix of 324 doubles as they come.
// Facts: i is a reference's place, which the loop over them bounds, and t a number of terms, at most 9: each an
// argument, which has no struct.
#![tactic(auto)]

ghost use Rattle.std.specs.Prelude.{◌≡◌, List, Float, ℕ, ◌+◌, ◌*◌, ◌<◌, ◌≤◌, length};
ghost use Rattle.math.specs.Gauss.{system};
ghost use Rattle.references.specs.References.{observed_of, nominal_of, place_of};
ghost use Rattle.equations.specs.Once as spec;
ghost use Rattle.equations.specs.Live.{live_count};

pub mod live;

use illum::IlluminationModel;
use references::{Primary, References};

// The shape of a channel's surfaces: their terms, the card's side, and whether flare is fitted.
#[derive(Clone, Copy, Debug)]
pub struct Plan {
    pub terms: usize,
    pub side: f32,
    pub flare: bool,
}

// A channel's surfaces.
#[derive(Clone, Copy, Debug)]
pub struct Surface {
    pub gain: [f64; 9],
    pub flare: [f64; 9],
}

// The affine part, a row a channel.
#[derive(Clone, Copy, Debug)]
pub struct Affine {
    pub r: [f64; 4],
    pub g: [f64; 4],
    pub b: [f64; 4],
}

// References with a mark for each, as `live` has them.
#[derive(Clone, Copy, Debug)]
pub struct Selection<'a> {
    pub references: References<'a>,
    pub marks: &'a [f32],
    ghost marked: { length marks.now ≡ references.n },
}

// What each live reference adds to the equations: a row of unknowns' factors, and its target. A row is written into the
// caller's array, since one that is answered is copied on its way.
trait Rows {
    ghost count: { Self → ℕ };

    ghost rows: { Self → ℕ → List Float };

    ghost targets: { Self → ℕ → Float };

    // Writes the row of reference i.
    fn write(&self, i: usize, out: &mut [f64; 18])
        requires { i < count self.now }
        ensures { out.new ≡ rows self.now i };

    // The target of reference i.
    fn target(&self, i: usize) -> f64
        requires { i < count self.now }
        ensures { result ≡ targets self.now i };
}

// Normal equations of up to 18 unknowns.
#[derive(Debug, Drop)]
struct Equations {
    ata: [f64; 324],
    atb: [f64; 18],
}

impl Equations {
    // No row.
    #[tactic(auto, unfolding(illum::specs::Surface::zero64))]
    fn none() -> Equations
        ensures { system result.ata result.atb ≡ spec.no_equations }
    {
        let ata = [0.0; 324];
        let atb = [0.0; 18];
        Equations { ata, atb }
    }

    // Adds the row and the target of each live reference, of w unknowns.
    fn add_rows<R: Rows>(&mut self, marks: &[f32], w: usize, from: &R)
        requires unknowns { w ≤ 18 }
        requires each { R.count from.now ≡ length marks.now }
        ensures { system self.new.ata self.new.atb ≡ spec.live_rows w marks.now (R.rows from.now) (R.targets from.now) (length marks.now) (system self.old.ata self.old.atb) }
    {
        let mut row = [0.0; 18];
        for (i, &mark) in marks.iter().enumerate() {
            if live::is_live(mark) {
                from.write(i, &mut row);
                math::add_row_core(&mut self.ata, &mut self.atb, &row, from.target(i), w);
            }
        }
    }

    // The solution of w unknowns, where there is one.
    fn solve(&mut self, w: usize) -> Option<[f64; 18]>
        requires { w ≤ 18 }
        ensures { result ≡ spec.solution w (system self.old.ata self.old.atb) }
    {
        let mut x = [0.0; 18];
        if math::finish_core(&mut self.ata, &mut self.atb, &mut x, w) {
            Some(x)
        } else {
            None
        }
    }
}

// ---- stage 1: forward gain and flare surfaces, per channel

// The basis times the nominal value, at the start of a row.
// Twin: of `append_terms`; one body would take a place and a factor, and multiply by 1 where there is no product.
fn scale_terms(row: &mut [f64; 18], b: &[f64; 9], t: usize, nominal: f64)
    requires { t ≤ 9 }
    ensures { row.new ≡ spec.scaled b.now t nominal row.old }
{
    for (k, &term) in b[..t].iter().enumerate() {
        row[k] = term * nominal;
    }
}

// The basis itself after them.
// Twin: of `scale_terms`.
fn append_terms(row: &mut [f64; 18], b: &[f64; 9], t: usize)
    requires { t ≤ 9 }
    ensures { row.new ≡ spec.appended b.now t row.old }
{
    for (k, &term) in b[..t].iter().enumerate() {
        row[t + k] = term;
    }
}

// t numbers of the solution, from the place `from` on, and 0 past them.
fn coefficients(x: [f64; 18], from: usize, t: usize) -> [f64; 9]
    requires { (t ≤ 9) × (from + t ≤ 18) }
    ensures { result ≡ spec.coefficients x from t }
{
    let mut l = [0.0; 9];
    for (k, &v) in x[from..from + t].iter().enumerate() {
        l[k] = v;
    }
    l
}

// Gain 1 everywhere and no flare.
fn unit_surface() -> Surface
    ensures { result ≡ spec.unit_surface }
{
    let gain = [1.0, 0.0, 0.0, 0.0, 0.0, 0.0, 0.0, 0.0, 0.0];
    let flare = [0.0; 9];
    Surface { gain, flare }
}

impl Plan {
    // How many unknowns a channel has.
    #[tactic(auto, unfolding(crate::specs::Once::width_of), using(crate::proofs::Widths::terms_most))]
    fn width(self) -> usize
        ensures { (result ≡ spec.width_of self) × (result ≤ 18) }
    {
        let t = illum::terms_used(self.terms);
        if self.flare { 2 * t } else { t }
    }

    // Writes a design row: gain's terms and, where flare is fitted, flare's.
    #[tactic(auto, unfolding(crate::specs::Once::design_of), using(crate::proofs::Widths::terms_most, crate::proofs::Widths::zero))]
    fn design(self, b: &[f64; 9], nominal: f64, row: &mut [f64; 18])
        ensures { row.new ≡ spec.design_of self b.now nominal }
    {
        let t = illum::terms_used(self.terms);
        *row = [0.0; 18];
        scale_terms(row, b, t, nominal);
        if self.flare {
            append_terms(row, b, t);
        }
    }

    // The surfaces of a solution.
    #[tactic(auto, unfolding(crate::specs::Once::solved_surface), using(crate::proofs::Widths::terms_most, crate::proofs::Widths::zero))]
    fn solved(self, x: [f64; 18]) -> Surface
        ensures { result ≡ spec.solved_surface self x }
    {
        let t = illum::terms_used(self.terms);
        let gain = coefficients(x, 0, t);
        if self.flare {
            let flare = coefficients(x, t, t);
            return Surface { gain, flare };
        }
        let flare = [0.0; 9];
        Surface { gain, flare }
    }
}

// The model with other surfaces.
// By hand: the borrow checker takes no field that is an array straight into a literal, and so each has a local.
fn with_surfaces(m: IlluminationModel, r: Surface, g: Surface, b: Surface) -> IlluminationModel
    ensures { result ≡ spec.with_surfaces m r g b }
{
    let gain_r = r.gain;
    let gain_g = g.gain;
    let gain_b = b.gain;
    let flare_r = r.flare;
    let flare_g = g.flare;
    let flare_b = b.flare;
    IlluminationModel {
        gain_r,
        gain_g,
        gain_b,
        flare_r,
        flare_g,
        flare_b,
        ..m
    }
}

// The model with another affine part.
// By hand: as `with_surfaces`.
fn with_affine(m: IlluminationModel, a: Affine) -> IlluminationModel
    ensures { result ≡ spec.with_affine m a }
{
    let affine_r = a.r;
    let affine_g = a.g;
    let affine_b = a.b;
    IlluminationModel {
        affine_r,
        affine_g,
        affine_b,
        ..m
    }
}

// The rows of a channel's surfaces.
#[derive(Clone, Copy, Debug)]
struct SurfaceRows<'a> {
    plan: Plan,
    references: References<'a>,
    channel: Primary,
}

impl Rows for SurfaceRows<'_> {
    ghost count = { λ r. r.references.n };

    ghost rows = { λ r. spec.surface_row r.plan r.references.flat.now (place_of r.channel) };

    ghost targets = { λ r. observed_of r.references.flat.now (place_of r.channel) };

    #[tactic(auto, unfolding(crate::specs::Once::surface_row))]
    fn write(&self, i: usize, out: &mut [f64; 18]) {
        let references = &self.references;
        let b = illum::basis(
            self.plan.terms,
            self.plan.side,
            references.x(i),
            references.y(i),
        );
        let nominal = references.nominal_of(self.channel, i);
        self.plan.design(&b, float::widen(nominal), out);
    }

    fn target(&self, i: usize) -> f64 {
        float::widen(self.references.observed_of(self.channel, i))
    }
}

// The rows of a channel's affine part: a reference's three inverses, and 1; what stands past them is not read.
#[derive(Clone, Copy, Debug)]
struct AffineRows<'a> {
    model: &'a IlluminationModel,
    references: References<'a>,
    channel: Primary,
}

impl Rows for AffineRows<'_> {
    ghost count = { λ r. r.references.n };

    ghost rows = { λ r. spec.affine_row_of r.model.now r.references.flat.now };

    ghost targets = { λ r. nominal_of r.references.flat.now (place_of r.channel) };

    #[tactic(auto, unfolding(crate::specs::Once::affine_row_of), using(crate::proofs::Widths::zero, crate::proofs::Widths::one))]
    fn write(&self, i: usize, out: &mut [f64; 18]) {
        let d = illum::unshade(*self.model, self.references.seen(i));
        *out = [0.0; 18];
        out[0] = d.r.value;
        out[1] = d.g.value;
        out[2] = d.b.value;
        out[3] = 1.0;
    }

    fn target(&self, i: usize) -> f64 {
        float::widen(self.references.nominal_of(self.channel, i))
    }
}

impl<'a> Selection<'a> {
    // Core: references with as many marks.
    pub fn new(references: References<'a>, marks: &'a [f32]) -> Selection<'a>
        requires { length marks.now ≡ references.n }
        ensures { (result.references.flat.now ≡ references.entry.flat.now) × (result.references.n ≡ references.entry.n) × (result.marks.now ≡ marks.now) }
    {
        Selection { references, marks }
    }

    // Core: how many are live.
    pub fn count(&self) -> usize
        ensures { (result ≡ live_count self.now.marks.now self.now.references.n) × (result ≤ self.now.references.n) }
    {
        live::live_count(self.marks)
    }

    // A channel's surfaces, `count` references being live; unit gain where there is no solution.
    fn surface(&self, p: Plan, channel: Primary, count: usize) -> Surface
        ensures { result ≡ spec.surface_of p self.now.references.flat.now self.now.marks.now (place_of channel) self.now.references.n count }
    {
        let w = p.width();
        if count < w {
            return unit_surface();
        }
        let rows = SurfaceRows {
            plan: p,
            references: self.references,
            channel,
        };
        let mut equations = Equations::none();
        equations.add_rows(self.marks, w, &rows);
        match equations.solve(w) {
            Some(x) => p.solved(x),
            None => unit_surface(),
        }
    }

    // The model with its surfaces fitted. Flare is fitted from 6 × terms live references on.
    #[tactic(auto, unfolding(crate::specs::Once::surfaces_of), using(crate::proofs::Widths::terms_most))]
    fn surfaces(&self, m: IlluminationModel, count: usize) -> IlluminationModel
        ensures { result ≡ spec.surfaces_of m self.now.references.flat.now self.now.marks.now self.now.references.n count }
    {
        let p = Plan {
            terms: m.terms,
            side: m.side,
            flare: 6 * illum::terms_used(m.terms) <= count,
        };
        let r = self.surface(p, Primary::Red, count);
        let g = self.surface(p, Primary::Green, count);
        let b = self.surface(p, Primary::Blue, count);
        with_surfaces(m, r, g, b)
    }

    // ---- stage 2: the affine part over the de-shaded observations

    // A channel's row of the affine part, where its equations have a solution.
    fn row(&self, m: IlluminationModel, channel: Primary) -> Option<[f64; 4]>
        ensures { result ≡ spec.fit_row m self.now.references.flat.now self.now.marks.now (place_of channel) self.now.references.n }
    {
        let rows = AffineRows {
            model: &m,
            references: self.references,
            channel,
        };
        let mut equations = Equations::none();
        equations.add_rows(self.marks, 4, &rows);
        let x = equations.solve(4)?;
        Some([x[0], x[1], x[2], x[3]])
    }

    // The affine part, where every channel has a solution.
    #[tactic(auto, unfolding(crate::specs::Once::affine_of))]
    fn affine(&self, m: IlluminationModel) -> Option<Affine>
        ensures { result ≡ spec.affine_of m self.now.references.flat.now self.now.marks.now self.now.references.n }
    {
        let r = self.row(m, Primary::Red)?;
        let g = self.row(m, Primary::Green)?;
        let b = self.row(m, Primary::Blue)?;
        Some(Affine { r, g, b })
    }

    // Core: the model that one pass's equations over the live ones give, from model m: none where fewer than 8 are live or a row of
    // the affine part has no solution.
    #[tactic(auto, unfolding(crate::specs::Once::fit_once))]
    pub fn fit_once(&self, m: IlluminationModel) -> Option<IlluminationModel>
        ensures { result ≡ spec.fit_once m self.now.references.flat.now self.now.marks.now self.now.references.n }
    {
        let count = self.count();
        if count < 8 {
            return None;
        }
        let s = self.surfaces(m, count);
        let a = self.affine(s)?;
        Some(with_affine(s, a))
    }
}
