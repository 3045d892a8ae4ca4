// References of known colour as flat floats, eight each: x, y, the observed colour, the nominal colour. What stands where,
// sentences 6, 7 and 8 of them, and the scratch of 4 × references that is lent with them.
// Behind a call's refusals the floats and their count are a `References`.
// Slices: the C interface lends the floats and their count apart, and so `check_references` takes them.
// Facts: i is a reference's place, which the caller's loop bounds; a side is one number with one limit.
#![tactic(auto)]

ghost use Rattle.std.specs.Prelude.{◌≡◌, ◌+◌, ◌*◌, ◌<◌, ◌≤◌, length};
ghost use Rattle.sentences.specs.Sentences.{refusal};
ghost use Rattle.answers.specs.Answers.{outcome_number};
ghost use Rattle.order.specs.Deviation.{cleared};
ghost use Rattle.references.specs.References as spec;

use answers::Refusal;
use color::Linear;
use illum::Spot;

// A channel of a colour.
#[derive(Clone, Copy, Debug, PartialEq, Eq)]
pub enum Primary {
    Red,
    Green,
    Blue,
}

// Its place among the three.
impl From<Primary> for usize {
    ghost from_gives = { λ channel c. (c ≡ spec.place_of channel) × (c < 3) };

    fn from(channel: Primary) -> usize {
        match channel {
            Primary::Red => 0,
            Primary::Green => 1,
            Primary::Blue => 2,
        }
    }
}

// The floats of references and how many they are, which the floats reach for.
#[derive(Clone, Copy, Debug)]
pub struct References<'a> {
    pub flat: &'a [f32],
    pub n: usize,
    ghost stand: { 8 * n ≤ length flat.now },
}

impl<'a> References<'a> {
    // Core: n references of floats that are long enough for them.
    pub fn new(flat: &'a [f32], n: usize) -> References<'a>
        requires { 8 * n ≤ length flat.now }
        ensures { (result.flat.now ≡ flat.now) × (result.n ≡ n) }
    {
        References { flat, n }
    }

    // ---- what stands where

    // Core: where reference i stands, from the left.
    pub fn x(&self, i: usize) -> f32
        requires { i < self.now.n }
        ensures { result ≡ spec.x_at self.now.flat.now i }
    {
        self.flat[8 * i]
    }

    // Core: and from the top.
    pub fn y(&self, i: usize) -> f32
        requires { i < self.now.n }
        ensures { result ≡ spec.y_at self.now.flat.now i }
    {
        self.flat[8 * i + 1]
    }

    // The colour that stands at the place `at` of reference i.
    fn colour(&self, i: usize, at: usize) -> Linear
        requires { (i < self.now.n) × (at ≤ 5) }
        ensures { result ≡ spec.colour_at self.now.flat.now at i }
    {
        Linear {
            r: self.flat[8 * i + at],
            g: self.flat[8 * i + at + 1],
            b: self.flat[8 * i + at + 2],
        }
    }

    // Core: a channel of the observed colour of reference i.
    // Twin: of `nominal_of`; each reads one float, three places apart, and what both would call has the same body.
    pub fn observed_of(&self, channel: Primary, i: usize) -> f32
        requires { i < self.now.n }
        ensures { result ≡ spec.observed_of self.now.flat.now (spec.place_of channel) i }
    {
        self.flat[8 * i + 2 + usize::from(channel)]
    }

    // Core: a channel of the nominal colour of reference i.
    // Twin: of `observed_of`.
    pub fn nominal_of(&self, channel: Primary, i: usize) -> f32
        requires { i < self.now.n }
        ensures { result ≡ spec.nominal_of self.now.flat.now (spec.place_of channel) i }
    {
        self.flat[8 * i + 5 + usize::from(channel)]
    }

    // Core: the observed colour of reference i.
    pub fn observed(&self, i: usize) -> Linear
        requires { i < self.now.n }
        ensures { result ≡ spec.observed_at self.now.flat.now i }
    {
        self.colour(i, 2)
    }

    // Core: reference i as it was observed.
    pub fn seen(&self, i: usize) -> Spot
        requires { i < self.now.n }
        ensures { result ≡ spec.seen_at self.now.flat.now i }
    {
        Spot {
            x: self.x(i),
            y: self.y(i),
            colour: self.observed(i),
        }
    }

    // Core: the nominal colour of reference i.
    pub fn nominal(&self, i: usize) -> Linear
        requires { i < self.now.n }
        ensures { result ≡ spec.nominal_at self.now.flat.now i }
    {
        self.colour(i, 5)
    }

    // ---- sentence 7

    // Reference i is misplaced.
    // Twin: of `Ring::misplaced` of near, whose positions stand two floats apart; one over both would take a slice and
    // a stride for one line.
    #[tactic(auto, unfolding(crate::specs::References::misplaced_at))]
    fn misplaced(&self, side: usize, i: usize) -> bool
        requires { (side ≤ 1024) × (i < self.now.n) }
        ensures { result ≡ spec.misplaced_at side self.now.flat.now i }
    {
        bad_position(side, self.x(i)) || bad_position(side, self.y(i))
    }

    // Sentence 7, one of the references is misplaced.
    fn bad_positions(&self, side: usize) -> bool
        requires { side ≤ 1024 }
        ensures { result ≡ spec.bad_positions side self.now.flat.now self.now.n }
    {
        (0..self.n).any(|i| self.misplaced(side, i))
    }

    // ---- sentence 8

    // Whether a component of the colours of reference i is as the test says.
    fn colour_is<F: Fn(f32) -> bool>(&self, i: usize, test: &F) -> bool
        requires stands { i < self.now.n }
        requires callable { F.IsAlwaysCallable test.now }
        ensures { spec.Seeks (F.post test.now) self.now.flat.now (8 * i + 2) (8 * i + 8) result }
    {
        (8 * i + 2..8 * i + 8).any(|k| test(self.flat[k]))
    }

    // Core: sentence 8 of `fit`, one of the references has a colour that is not finite.
    // Twin: of `wild_colours`; both share `colour_is`, and each one's closure names a definition of its own.
    pub fn bad_colours(&self) -> bool
        ensures { result ≡ spec.bad_colours self.now.flat.now self.now.n }
    {
        (0..self.n).any(
            |i|
                requires { i < self.now.n }
                ensures { result ≡ spec.bad_colour_at self.entry.now.flat.now i }
            { self.colour_is(i, &|v| illum::not_finite(v)) },
        )
    }

    // Core: sentence 8 of other calls, one of the references has a component above 1,048,576 in magnitude, or such a colour.
    // Twin: of `bad_colours`.
    pub fn wild_colours(&self) -> bool
        ensures { result ≡ spec.wild_colours self.now.flat.now self.now.n }
    {
        (0..self.n).any(
            |i|
                requires { i < self.now.n }
                ensures { result ≡ spec.wild_colour_at self.entry.now.flat.now i }
            { self.colour_is(i, &|v| color::palette::wild(v)) },
        )
    }
}

// ---- sentences 6 and 7

// Core: sentence 6, there are more than 16,384 references.
#[tactic(auto, unfolding(crate::specs::References::too_many))]
pub fn too_many(n: usize) -> bool
    ensures { result ≡ spec.too_many n }
{
    16384 < n
}

// Core: a coordinate is not a number from -16 to side + 16.
#[tactic(auto, unfolding(crate::specs::References::bad_position), using(crate::proofs::Literals::literals))]
pub fn bad_position(side: usize, v: f32) -> bool
    requires { side ≤ 1024 }
    ensures { result ≡ spec.bad_position side v }
{
    !(-16.0 <= v && v <= (side + 16) as f32)
}

// Core: refuses n references by 6 and 7, their number and their positions.
#[tactic(auto, unfolding(sentences::specs::Sentences::refusal, crate::specs::References::reference_placement, crate::specs::References::too_many))]
pub fn check_references(side: usize, flat: &[f32], n: usize) -> Result<(), Refusal>
    requires { (side ≤ 1024) × (n ≤ 16384 → 8 * n ≤ length flat.now) }
    ensures { outcome_number result ≡ refusal (spec.reference_placement side flat.now n) }
{
    if too_many(n) {
        return Err(Refusal::Count);
    }
    if References::new(flat, n).bad_positions(side) {
        return Err(Refusal::Place);
    }
    Ok(())
}

// ---- the scratch

// Core: sentence 5, of scratch of `lent` floats: it is shorter than 4 × n.
pub fn short_scratch(lent: usize, n: usize) -> bool
    ensures { result ≡ spec.short_scratch lent n }
{
    lent / 4 < n
}

// Core: zeros in the first n places.
// By hand: the library's `fill` of a part, with what it leaves of the whole as its contract, which two calls cite.
pub fn clear(scratch: &mut [f32], n: usize)
    requires { n ≤ length scratch.old }
    ensures { scratch.new ≡ cleared n scratch.old }
{
    scratch[..n].fill(0.0);
}
