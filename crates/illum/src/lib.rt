// The illumination model: what the channel did to each colour as a function of position, and its inverse. Ported from illum.rs,
// in the Rust's order of operations.
//
//     fit:      observed  ≈  gain(x, y) * nominal + flare(x, y)                 for each channel
//     correct:  nominal   =  affine * [(observed - flare(x, y)) / gain(x, y)]
#![tactic(auto)]

ghost use Rattle.std.specs.Prelude.{◌≡◌, ◌+◌, ◌<◌, ◌≤◌, not, ◌||◌, length};
ghost use Rattle.std.specs.Float.Ieee.Scale.{finite};
ghost use Rattle.float.specs.Single.{to_single};
ghost use Rattle.answers.specs.Answers.{said};
ghost use Rattle.color.specs.Palette.{wild, wild_linear};
ghost use Rattle.illum.specs.Surface.{terms_used, basis_at, summed, is_held, hold_gain, inverted, deshade, normalised};
ghost use Rattle.illum.specs.Correct as spec;
ghost use Rattle.illum.specs.Tests.{any_of_model, AnyBy, AnyOfModel};
ghost use Rattle.illum.specs.Reach.{Typed, Placed, most_number, is_from, in_scale, reach_of, is_within};
ghost use Rattle.illum.specs.Refusals.{bad_terms, bad_model_side, not_finite_model, bad_shape, bad_model, model_said, identity_of, correct_of};
ghost use Rattle.illum.specs.Shown.{leaves_open};

use answers::Refusal;
use color::Linear;

// A fitted correction from observed to nominal linear light. The affine part is three rows of four; a gain and a flare surface
// a channel has `terms` coefficients, 4 or 9. Coefficients past `terms` are no numbers of the model: `identity` and the fit
// write 0 there, and nothing reads them.
#[repr(C)]
#[derive(Clone, Copy, Debug)]
pub struct IlluminationModel {
    // nominal r = affine_r[0] * r + affine_r[1] * g + affine_r[2] * b + affine_r[3], and so for g and b
    pub affine_r: [f64; 4],
    pub affine_g: [f64; 4],
    pub affine_b: [f64; 4],
    pub gain_r: [f64; 9],
    pub gain_g: [f64; 9],
    pub gain_b: [f64; 9],
    pub flare_r: [f64; 9],
    pub flare_g: [f64; 9],
    pub flare_b: [f64; 9],
    pub terms: usize,
    // the side of the card, by which positions are normalised
    pub side: f32,
    // the root of the mean square residual after fitting, in linear light
    pub residual_rms: f32,
    // references that the fit discarded, and that it kept
    pub rejected: u32,
    pub kept: u32,
}

// One channel's inverse, and whether the gain was held at 0.05.
#[derive(Clone, Copy, Debug)]
pub struct Inverse {
    pub value: f64,
    pub held: bool,
}

// The three channels' inverses.
#[derive(Clone, Copy, Debug)]
pub struct Unshaded {
    pub r: Inverse,
    pub g: Inverse,
    pub b: Inverse,
}

// Core: the affine part over the three channels' inverses, a row a channel, before it is rounded to f32.
#[derive(Clone, Copy, Debug)]
pub struct Unrounded {
    pub r: f64,
    pub g: f64,
    pub b: f64,
}

// A corrected colour, with a mark a channel: whether the gain, as the surface sums it at the position, was under 0.05 in magnitude and
// so was held at 0.05. Either zero is; 0.05 itself, an infinity and a NaN are not.
#[repr(C)]
#[derive(Clone, Copy, Debug)]
pub struct Marked {
    pub colour: Linear,
    pub held_r: bool,
    pub held_g: bool,
    pub held_b: bool,
}

// Where a colour stands, and the colour as it was observed.
#[derive(Clone, Copy, Debug)]
pub struct Spot {
    pub x: f32,
    pub y: f32,
    pub colour: Linear,
}

// Core: the positions from lo to hi on each axis; none where lo is above hi.
#[derive(Clone, Copy, Debug)]
pub struct Span {
    pub lo: f32,
    pub hi: f32,
}

// ---- the surfaces

// Core: how many terms a surface has: 4, or else 9.
#[tactic(auto, unfolding(crate::specs::Surface::terms_used))]
pub fn terms_used(terms: usize) -> usize
    ensures { result ≡ terms_used terms }
{
    if terms == 4 {
        return 4;
    }
    9
}

// A coordinate on the scale from -1 to 1 of a card of this side.
fn normalise(side: f32, x: f32) -> f64
    ensures { result ≡ normalised side x }
{
    2.0 * float::widen(x) / float::widen(side) - 1.0
}

// Core: the polynomial basis at a position, of 4 or 9 terms; past them stands 0.
#[tactic(auto, unfolding(crate::specs::Surface::basis_at))]
pub fn basis(terms: usize, side: f32, x: f32, y: f32) -> [f64; 9]
    ensures { result ≡ basis_at terms side x y }
{
    let u = normalise(side, x);
    let v = normalise(side, y);
    if terms == 4 {
        return [1.0, u, v, u * v, 0.0, 0.0, 0.0, 0.0, 0.0];
    }
    [
        1.0,
        u,
        v,
        u * v,
        u * u,
        v * v,
        u * u * v,
        u * v * v,
        u * u * v * v,
    ]
}

// The value of a surface of N terms: its coefficients times the basis, summed from +0 on.
#[inline(always)]
fn surface<const N: usize>(c: &[f64; 9], b: &[f64; 9]) -> f64
    requires { N ≤ 9 }
    ensures { result ≡ summed N c.now b.now }
{
    let mut sum = 0.0;
    for (k, &coefficient) in c[..N].iter().enumerate() {
        sum += coefficient * b[k];
    }
    sum
}

// ---- one channel's inverse

// Whether a gain is under 0.05 in magnitude.
#[tactic(auto, using(crate::proofs::Terms::literals), unfolding(crate::specs::Surface::is_held))]
fn is_held(g: f64) -> bool
    ensures { result ≡ is_held g }
{
    float::abs_f64(g) < 0.05
}

// A gain under 0.05 in magnitude becomes 0.05 of its sign; either zero gives +0.05, and a NaN is left.
fn hold_gain(g: f64) -> f64
    ensures { result ≡ hold_gain g }
{
    if is_held(g) {
        if g < 0.0 {
            return -0.05;
        }
        return 0.05;
    }
    g
}

// One channel's inverse of a gain and a flare, (observed - flare) / gain.
fn inverse_of(gain: f64, flare: f64, observed: f32) -> Inverse
    ensures { result ≡ inverted gain flare observed }
{
    Inverse {
        value: (float::widen(observed) - flare) / hold_gain(gain),
        held: is_held(gain),
    }
}

// One channel's inverse of surfaces of N terms, which are 4 or 9, at a basis.
#[inline(always)]
#[tactic(auto, using(crate::proofs::Inverses::used))]
fn invert<const N: usize>(gain: &[f64; 9], flare: &[f64; 9], b: &[f64; 9], observed: f32) -> Inverse
    requires { terms_used N ≡ N }
    ensures { result ≡ deshade N gain.now flare.now b.now observed }
{
    inverse_of(surface::<N>(gain, b), surface::<N>(flare, b), observed)
}

// One row of the affine part.
fn row(a: &[f64; 4], r: f64, g: f64, b: f64) -> f64
    ensures { result ≡ spec.row a.now r g b }
{
    a[0] * r + a[1] * g + a[2] * b + a[3]
}

// ---- a model that is lent part by part, so that no coefficient is copied

// The parts of a model: all but its counts of references, at which no answer looks. What a correction takes on its way is
// inlined: the parts are then read from where they lie.
#[derive(Clone, Copy, Debug)]
struct Parts<'a> {
    terms: usize,
    side: f32,
    residual_rms: f32,
    affine_r: &'a [f64; 4],
    affine_g: &'a [f64; 4],
    affine_b: &'a [f64; 4],
    gain_r: &'a [f64; 9],
    gain_g: &'a [f64; 9],
    gain_b: &'a [f64; 9],
    flare_r: &'a [f64; 9],
    flare_g: &'a [f64; 9],
    flare_b: &'a [f64; 9],
}

impl<'a> Parts<'a> {
    // Those of a model.
    #[inline(always)]
    #[tactic(auto, unfolding(crate::specs::Correct::of_parts, crate::specs::Correct::uncounted))]
    fn of(m: &'a IlluminationModel) -> Parts<'a>
        ensures { spec.of_parts result ≡ spec.uncounted m.now }
    {
        Parts {
            terms: m.terms,
            side: m.side,
            residual_rms: m.residual_rms,
            affine_r: &m.affine_r,
            affine_g: &m.affine_g,
            affine_b: &m.affine_b,
            gain_r: &m.gain_r,
            gain_g: &m.gain_g,
            gain_b: &m.gain_b,
            flare_r: &m.flare_r,
            flare_g: &m.flare_g,
            flare_b: &m.flare_b,
        }
    }

    // The three channels' inverses at a position, of surfaces of N terms, which are 4 or 9.
    #[inline(always)]
    #[tactic(auto, using(crate::proofs::Inverses::three), unfolding(crate::specs::Correct::of_parts))]
    fn unshade_by<const N: usize>(self, s: Spot) -> Unshaded
        requires { terms_used N ≡ N }
        ensures { result ≡ spec.unshaded_by N (spec.of_parts self.entry) s.x s.y s.colour }
    {
        let at = basis(N, self.side, s.x, s.y);
        Unshaded {
            r: invert::<N>(self.gain_r, self.flare_r, &at, s.colour.r),
            g: invert::<N>(self.gain_g, self.flare_g, &at, s.colour.g),
            b: invert::<N>(self.gain_b, self.flare_b, &at, s.colour.b),
        }
    }

    // The three channels' inverses at a position.
    #[inline(always)]
    #[tactic(auto, using(crate::proofs::Inverses::by_terms), unfolding(crate::specs::Correct::of_parts, crate::specs::Surface::terms_used))]
    fn unshade(self, s: Spot) -> Unshaded
        ensures { result ≡ spec.unshaded (spec.of_parts self.entry) s.x s.y s.colour }
    {
        if self.terms == 4 {
            return self.unshade_by::<4>(s);
        }
        self.unshade_by::<9>(s)
    }

    // The affine part over them, a row a channel.
    #[inline(always)]
    #[tactic(auto, unfolding(crate::specs::Correct::rows, crate::specs::Correct::of_parts))]
    fn rows(self, d: Unshaded) -> Unrounded
        ensures { result ≡ spec.rows (spec.of_parts self.entry) d }
    {
        Unrounded {
            r: row(self.affine_r, d.r.value, d.g.value, d.b.value),
            g: row(self.affine_g, d.r.value, d.g.value, d.b.value),
            b: row(self.affine_b, d.r.value, d.g.value, d.b.value),
        }
    }

    // The affine part over them, rounded, with the mark of each.
    #[inline(always)]
    #[tactic(auto, using(crate::proofs::Rounded::marked))]
    fn mix(self, d: Unshaded) -> Marked
        ensures { result ≡ spec.mixed (spec.of_parts self.entry) d }
    {
        let v = self.rows(d);
        Marked {
            colour: Linear {
                r: float::narrow(v.r),
                g: float::narrow(v.g),
                b: float::narrow(v.b),
            },
            held_r: d.r.held,
            held_g: d.g.held,
            held_b: d.b.held,
        }
    }

    // Whether a number of the affine part, or of the surfaces among their terms, passes a test.
    #[tactic(auto, using(crate::proofs::Terms::sizes), unfolding(crate::specs::Correct::of_parts))]
    fn any<F: Fn(f64) -> bool + Copy>(self, test: F) -> bool
        requires { F.IsAlwaysCallable test }
        ensures { AnyOfModel (F.post test) (spec.of_parts self.entry) result }
    {
        let n = terms_used(self.terms);
        let rows = any_of(self.affine_r, 4, test)
            | any_of(self.affine_g, 4, test)
            | any_of(self.affine_b, 4, test);
        let gains = any_of(self.gain_r, n, test)
            | any_of(self.gain_g, n, test)
            | any_of(self.gain_b, n, test);
        let flares = any_of(self.flare_r, n, test)
            | any_of(self.flare_g, n, test)
            | any_of(self.flare_b, n, test);
        rows | gains | flares
    }

    // A number is not finite.
    fn not_finite(self) -> bool
        ensures { result ≡ not_finite_model (spec.of_parts self.entry) }
    {
        self.any(not_finite_f64) | not_finite(self.residual_rms)
    }

    // The terms are neither 4 nor 9, or the side is not a whole number from 1 to 1,024.
    #[tactic(auto, unfolding(crate::specs::Refusals::bad_shape, crate::specs::Correct::of_parts))]
    fn bad_shape(self) -> bool
        ensures { result ≡ bad_shape (spec.of_parts self.entry) }
    {
        bad_terms(self.terms) || bad_model_side(self.side)
    }

    // `correct` of the model that these are parts of.
    fn correct(self, s: Spot) -> Result<Marked, Refusal>
        ensures { said result ≡ correct_of (spec.of_parts self.entry) s.x s.y s.colour }
    {
        if color::palette::wild_linear(s.colour) {
            return Err(Refusal::Number);
        }
        if self.bad_shape() {
            return Err(Refusal::Model);
        }
        let d = self.unshade(s);
        let out = self.mix(d);
        if leaves_open(self.residual_rms, d, out.colour) && self.not_finite() {
            return Err(Refusal::Model);
        }
        Ok(out)
    }
}

// Whether one of the first n numbers passes a test.
fn any_of<const L: usize, F: Fn(f64) -> bool>(numbers: &[f64; L], n: usize, test: F) -> bool
    requires few { n ≤ L }
    requires callable { F.IsAlwaysCallable test }
    ensures { AnyBy (F.post test) n numbers.now result }
{
    numbers[..n].iter().any(|&v| test(v))
}

// ---- correct

// Core: the three channels' inverses at a position, without the affine part.
#[tactic(auto, using(crate::proofs::Lent::unshaded_alone))]
pub fn unshade(model: IlluminationModel, s: Spot) -> Unshaded
    ensures { result ≡ spec.unshaded model s.x s.y s.colour }
{
    Parts::of(&model).unshade(s)
}

// Core: the affine part over the three channels' inverses, not yet rounded. (A caller that stores the colour rounds each row itself: a
// colour of three f32 is handed over through memory and read back in other widths, for which a processor waits.)
#[tactic(auto, using(crate::proofs::Lent::rows_alone))]
pub fn rows(model: IlluminationModel, d: Unshaded) -> Unrounded
    ensures { result ≡ spec.rows model d }
{
    Parts::of(&model).rows(d)
}

// Core: the affine part over the three channels' inverses, with the mark of each.
#[tactic(auto, using(crate::proofs::Lent::mixed_alone))]
pub fn mix(model: IlluminationModel, d: Unshaded) -> Marked
    ensures { result ≡ spec.mixed model d }
{
    Parts::of(&model).mix(d)
}

// Whether one of the three marks is set.
#[tactic(auto, unfolding(crate::specs::Correct::any_held))]
fn any_held(d: Unshaded) -> bool
    ensures { result ≡ spec.any_held d }
{
    d.r.held | d.g.held | d.b.held
}

// Core: one more than k where one of the three marks is set: a colour with two or three marks is counted once.
#[tactic(auto, unfolding(crate::specs::Correct::count_held))]
pub fn count_held(d: Unshaded, k: usize) -> usize
    requires { k < 0xffff_ffff_ffff_ffff }
    ensures { (result ≡ spec.count_held d k) × (result ≤ k + 1) }
{
    if any_held(d) {
        return k + 1;
    }
    k
}

// Whether a row, rounded to an f32, is not finite or above 1,048,576 in magnitude. It is where the row itself is above 1,048,576 and
// half a step of an f32 there.
fn wild_row(v: f64) -> bool
    ensures { result ≡ wild (to_single v) }
{
    !((v <= 1048576.0625) & (-1048576.0625 <= v))
}

// Core: whether the colour that `mix` gives is wild, without rounding it.
#[tactic(auto, using(crate::proofs::Rounded::wild_mixed))]
pub fn wild_mix(model: IlluminationModel, d: Unshaded) -> bool
    ensures { result ≡ wild_linear (spec.mixed model d).colour }
{
    let v = rows(model, d);
    wild_row(v.r) | wild_row(v.g) | wild_row(v.b)
}

// Core: an observed colour at a position, corrected, with the marks of the channels whose gain was held. Takes every float.
pub fn corrected(model: IlluminationModel, s: Spot) -> Marked
    ensures { result ≡ spec.corrected model s.x s.y s.colour }
{
    mix(model, unshade(model, s))
}

// ---- reach: where no corrected colour is wild

// Whether a number is not from -8 to 8.
fn is_large(v: f64) -> bool
    ensures { result ≡ not (is_from most_number v) }
{
    !((-8.0 <= v) & (v <= 8.0))
}

// Whether one of a model's numbers is.
fn any_large(m: IlluminationModel) -> bool
    ensures { result ≡ any_of_model (λ v. not (is_from most_number v)) m }
{
    Parts::of(&m).any(is_large)
}

// Whether the positions from -side to 2 × side are from -3 to 3 on the scale of the surfaces.
fn in_scale(side: f32) -> bool
    ensures { result ≡ in_scale side }
{
    (-3.0 <= normalise(side, -side)) & (normalise(side, side + side) <= 3.0)
}

// Core: the positions at which no colour from -256 to 256, corrected by this model, breaks sentence 12: from -side to 2 × side, and
// none where the side is not from 1 to 1,024, or a number of the affine part or the surfaces not from -8 to 8. Beside it, for the
// law: each number of the model is a value of its format.
pub fn reach(model: IlluminationModel) -> Span
    ensures { (result ≡ reach_of model) × Typed model }
{
    let large = any_large(model);
    if (1.0 <= model.side) & (model.side <= 1024.0) & in_scale(model.side) & !large {
        return Span {
            lo: -model.side,
            hi: model.side + model.side,
        };
    }
    Span { lo: 1.0, hi: 0.0 }
}

// Core: whether a spot's position is in a span, and each component of its colour from -256 to 256.
pub fn within(span: Span, s: Spot) -> bool
    ensures { (result ≡ is_within span s.x s.y s.colour) × Placed s.x s.y s.colour }
{
    let in_x = (span.lo <= s.x) & (s.x <= span.hi);
    let in_y = (span.lo <= s.y) & (s.y <= span.hi);
    let r = (-256.0 <= s.colour.r) & (s.colour.r <= 256.0);
    let g = (-256.0 <= s.colour.g) & (s.colour.g <= 256.0);
    let b = (-256.0 <= s.colour.b) & (s.colour.b <= 256.0);
    in_x & in_y & r & g & b
}

// Core: a model with the positions at which no moderate colour breaks sentence 12.
#[derive(Clone, Copy, Debug)]
pub struct Corrector<'a> {
    model: &'a IlluminationModel,
    span: Span,
    ghost reached: { (span ≡ reach_of model.now) × Typed model.now },
}

impl<'a> Corrector<'a> {
    // Core: of a model.
    pub fn new(model: &'a IlluminationModel) -> Corrector<'a>
        ensures { result.model.now ≡ model.now }
    {
        let span = reach(*model);
        Corrector { model, span }
    }

    // Core: sentence 12, of one spot: its corrected colour is wild.
    #[tactic(auto, using(crate::proofs::Moderate::spot_wild, crate::proofs::Moderate::in_reach_tame))]
    pub fn breaks(&self, s: Spot) -> bool
        ensures { result ≡ wild_linear (spec.corrected self.now.model.now s.x s.y s.colour).colour }
    {
        !within(self.span, s) && wild_mix(*self.model, unshade(*self.model, s))
    }
}

// ---- sentence 10

// Core: whether an f64 is not finite.
#[tactic(auto, using(crate::proofs::Terms::finite_same))]
pub fn not_finite_f64(v: f64) -> bool
    ensures { result ≡ not (finite v) }
{
    !v.is_finite()
}

// Core: whether an f32 is not finite.
#[tactic(auto, using(crate::proofs::Terms::finite_same))]
pub fn not_finite(v: f32) -> bool
    ensures { result ≡ not (finite v) }
{
    !v.is_finite()
}

// Core: sentence 10, of a model's terms: they are neither 4 nor 9.
#[tactic(auto, unfolding(crate::specs::Refusals::bad_terms))]
pub fn bad_terms(terms: usize) -> bool
    ensures { result ≡ bad_terms terms }
{
    terms != 4 && terms != 9
}

// The side is not a whole number from 1 to 1,024.
fn bad_model_side(side: f32) -> bool
    ensures { result ≡ bad_model_side side }
{
    if 1.0 <= side {
        if side <= 1024.0 {
            return std::num::truncating_f32_to_u64(side) as f32 != side;
        }
    }
    true
}

// Core: a number of the model is not finite.
#[tactic(auto, using(crate::proofs::Lent::numbers_alone))]
pub fn not_finite_model(m: IlluminationModel) -> bool
    ensures { result ≡ not_finite_model m }
{
    Parts::of(&m).not_finite()
}

// Core: sentence 10, the model's terms are neither 4 nor 9, its side is not a whole number from 1 to 1,024, or one of its numbers is
// not finite.
#[tactic(auto, using(crate::proofs::Lent::alone), unfolding(crate::specs::Refusals::bad_model))]
pub fn bad_model(m: IlluminationModel) -> bool
    ensures { result ≡ bad_model m }
{
    let parts = Parts::of(&m);
    parts.bad_shape() | parts.not_finite()
}

// ---- the calls

// Core: unit gains, no flare and the identity as affine part, with 4 or 9 terms: what the fit starts from.
pub fn unit_model(side: usize, terms: usize) -> IlluminationModel
    requires { side ≤ 1024 }
    ensures { result ≡ spec.unit_model side terms }
{
    let gain = [1.0, 0.0, 0.0, 0.0, 0.0, 0.0, 0.0, 0.0, 0.0];
    let flare = [0.0; 9];
    IlluminationModel {
        affine_r: [1.0, 0.0, 0.0, 0.0],
        affine_g: [0.0, 1.0, 0.0, 0.0],
        affine_b: [0.0, 0.0, 1.0, 0.0],
        gain_r: gain,
        gain_g: gain,
        gain_b: gain,
        flare_r: flare,
        flare_g: flare,
        flare_b: flare,
        terms,
        side: side as f32,
        residual_rms: 0.0,
        rejected: 0,
        kept: 0,
    }
}

// Core: what stands beside the number of a refusal where a caller is handed both: all zeros, a model that sentence 10 refuses.
pub fn no_model() -> IlluminationModel
    ensures { result ≡ spec.no_model }
{
    let row = [0.0; 4];
    let flare = [0.0; 9];
    IlluminationModel {
        affine_r: row,
        affine_g: row,
        affine_b: row,
        gain_r: flare,
        gain_g: flare,
        gain_b: flare,
        flare_r: flare,
        flare_g: flare,
        flare_b: flare,
        terms: 0,
        side: 0.0,
        residual_rms: 0.0,
        rejected: 0,
        kept: 0,
    }
}

// The model that corrects nothing, with 4 terms, for a card of this side. Refused by 2.
#[tactic(auto, using(limits::proofs::Laws::side_in), unfolding(crate::specs::Refusals::identity_of, sentences::specs::Sentences::refusal, sentences::specs::Sentences::decided))]
pub fn identity(side: usize) -> Result<IlluminationModel, Refusal>
    ensures { model_said result ≡ identity_of side }
{
    if limits::bad_side(side) {
        return Err(Refusal::Side);
    }
    Ok(unit_model(side, 4))
}

// Whether a corrected colour leaves it open that a number of its model is not finite. Such a number makes a component wild or an
// inverse 0, save for the residual.
#[tactic(auto, unfolding(crate::specs::Shown::leaves_open))]
fn leaves_open(residual_rms: f32, d: Unshaded, out: Linear) -> bool
    ensures { result ≡ leaves_open residual_rms d out }
{
    color::palette::wild_linear(out)
        || d.r.value == 0.0
        || d.g.value == 0.0
        || d.b.value == 0.0
        || not_finite(residual_rms)
}

// Core: `correct` of a model that is lent part by part.
#[tactic(auto, unfolding(crate::specs::Correct::of_parts))]
pub fn correct_lent<'a>(
    terms: usize,
    side: f32,
    residual_rms: f32,
    affine_r: &'a [f64; 4],
    affine_g: &'a [f64; 4],
    affine_b: &'a [f64; 4],
    gain_r: &'a [f64; 9],
    gain_g: &'a [f64; 9],
    gain_b: &'a [f64; 9],
    flare_r: &'a [f64; 9],
    flare_g: &'a [f64; 9],
    flare_b: &'a [f64; 9],
    x: f32,
    y: f32,
    colour: Linear,
) -> Result<Marked, Refusal>
    ensures { said result ≡ correct_of (spec.lent_model terms side residual_rms affine_r.now affine_g.now affine_b.now gain_r.now gain_g.now gain_b.now flare_r.now flare_g.now flare_b.now) x y colour }
{
    let parts = Parts {
        terms,
        side,
        residual_rms,
        affine_r,
        affine_g,
        affine_b,
        gain_r,
        gain_g,
        gain_b,
        flare_r,
        flare_g,
        flare_b,
    };
    parts.correct(Spot { x, y, colour })
}

// An observed colour at a position, corrected by the model, with the marks of the channels whose gain was held. The position is any
// float, and so is the colour that comes out; the marks depend on the model and the position alone. Refused by 8 and 10.
#[tactic(auto, using(crate::proofs::Lent::correct_alone))]
pub fn correct(model: IlluminationModel, x: f32, y: f32, colour: Linear) -> Result<Marked, Refusal>
    ensures { said result ≡ correct_of model x y colour }
{
    Parts::of(&model).correct(Spot { x, y, colour })
}
