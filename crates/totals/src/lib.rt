// Totals over a season's cards: how many cards and modules, how many modules are undecided, how many are under 12
// after refinement, and the sum of the magnitudes of the refined luma scores in whole 65,536ths. Totals of two
// batches add, in any order and however the cards are split.
//
// A first use: `empty_totals`, then `add_card` with each card's refined scores, then `mean`. Batches that were counted
// apart are joined by `add_totals`.
#![tactic(auto)]

ghost use Rattle.std.specs.Prelude.{◌≡◌, false, [], ◌+◌, ◌<◌, ◌≤◌};
ghost use Rattle.sentences.specs.Sentences.{refusal};
ghost use Rattle.answers.specs.Answers.{said, outcome_number};
ghost use Rattle.floatlaws.specs.Whole.{NearestWhole};
ghost use Rattle.totals.specs.Score as score;
ghost use Rattle.totals.specs.Batch as spec;
ghost use Rattle.totals.specs.Calls as call;
ghost use Rattle.totals.specs.LowestTerms as average;

use answers::Refusal;

// What a batch adds up to: its cards, its modules, those of them that are undecided, those whose score's magnitude is
// under 12, and the sum of the magnitudes in 65,536ths.
#[repr(C)]
#[derive(Clone, Copy, Debug, Default, PartialEq, Eq, Hash)]
pub struct Totals {
    pub cards: u64,
    pub modules: u64,
    pub undecided: u64,
    pub under: u64,
    pub sum: u64,
}

// A fraction of two whole numbers.
#[repr(C)]
#[derive(Clone, Copy, Debug, PartialEq, Eq, Hash)]
pub struct Ratio {
    pub numerator: u64,
    pub denominator: u64,
}

// The totals of no card, all zero. Refuses nothing.
#[tactic(auto, unfolding(crate::specs::Batch::of_cards))]
pub fn empty_totals() -> Totals
    ensures { result ≡ spec.of_cards [] }
{
    Totals::default()
}

// ---- one score

// Sentence 19, of one score: a NaN, or above 20 in magnitude.
#[tactic(auto, using(crate::proofs::Score::n20), unfolding(crate::specs::Score::unfit))]
fn unfit(v: f32) -> bool
    ensures { result ≡ score.unfit v }
{
    !(float::abs(v) <= 20.0)
}

// Whether a score is undecided: it reads as no bit, being a zero of either sign or a NaN.
#[tactic(auto, unfolding(crate::specs::Score::undecided))]
fn undecided(v: f32) -> bool
    ensures { result ≡ score.undecided v }
{
    reading::read(v) == 2
}

// Whether a score is under 12 in magnitude.
#[tactic(auto, using(crate::proofs::Score::n12), unfolding(crate::specs::Score::under))]
fn under(v: f32) -> bool
    ensures { result ≡ score.under v }
{
    float::abs(v) < 12.0
}

// The magnitude of a score in whole 65,536ths, the nearest, a tie to the even one. The exponent's field says how far the
// 24 digits lie above it: below 110 the magnitude is less than half of a 65,536th, and 20 has 131.
fn parts(v: f32) -> u64
    requires { score.unfit v ≡ false }
    ensures { (result ≡ score.parts_of v) × (result ≤ 1310720) × NearestWhole (score.size v) score.per_part result }
{
    let g = v.to_bits() % 0x8000_0000;
    let field = g / 0x80_0000;
    if field < 110 {
        return 0;
    }
    float::round_shift(u64::from(g % 0x80_0000 + 0x80_0000), u64::from(134 - field))
}

// ---- a card

impl Totals {
    // Counts a module more, of score v.
    #[tactic(auto, unfolding(crate::specs::Batch::add_score))]
    fn add_score(&mut self, v: f32)
        requires { (score.unfit v ≡ false) × spec.Room self.old }
        ensures { self.new ≡ spec.add_score v self.old }
    {
        self.modules += 1;
        self.undecided += u64::from(undecided(v));
        self.under += u64::from(under(v));
        self.sum += parts(v);
    }

    // The sum of two, field by field.
    fn plus(self, other: Totals) -> Totals
        requires { spec.Good self × spec.Good other × (self.cards + other.cards ≤ 65535) }
        ensures { result ≡ spec.plus self other }
    {
        Totals {
            cards: self.cards + other.cards,
            modules: self.modules + other.modules,
            undecided: self.undecided + other.undecided,
            under: self.under + other.under,
            sum: self.sum + other.sum,
        }
    }
}

// A card more, whose scores these are.
fn add_scores(t: Totals, luma: &[f32]) -> Totals
    requires { spec.Good t × (t.cards < 65535) × spec.FitCard luma.now }
    ensures { result ≡ spec.plus t (spec.of_card luma.now) }
{
    let mut sums = Totals {
        cards: t.cards + 1,
        ..t
    };
    for &v in luma {
        sums.add_score(v);
    }
    sums
}

// Sentence 18, of totals that are handed in: more than 65,535 cards, 1,048,576 modules a card, their modules in a count,
// or 1,310,720 a module in the sum. In this order no product wraps.
#[tactic(auto, unfolding(crate::specs::Batch::bad_totals))]
fn bad_totals(t: Totals) -> bool
    ensures { result ≡ spec.bad_totals t }
{
    65535 < t.cards
        || 1048576 * t.cards < t.modules
        || t.modules < t.undecided
        || t.modules < t.under
        || 1310720 * t.modules < t.sum
}

// Sentence 19, of all scores: one is a NaN, or above 20 in magnitude.
fn bad_scores(luma: &[f32]) -> bool
    ensures { result ≡ spec.unfit_in luma.now }
{
    luma.iter().any(|&v| unfit(v))
}

// Sentence 18, of one card more.
#[tactic(auto, unfolding(crate::specs::Calls::full, crate::specs::Batch::bad_totals))]
fn full(t: Totals) -> bool
    ensures { result ≡ call.full t }
{
    bad_totals(t) || 65535 < t.cards + 1
}

// Whether totals and a card pass. Refused: 6, 18, 19.
#[tactic(auto, unfolding(crate::specs::Calls::card_sentences, sentences::specs::Sentences::refusal))]
fn check_card(t: Totals, luma: &[f32]) -> Result<(), Refusal>
    ensures { outcome_number result ≡ refusal (call.card_sentences t luma.now) }
{
    if 1048576 < luma.len() {
        return Err(Refusal::Count);
    }
    if full(t) {
        return Err(Refusal::Totals);
    }
    if bad_scores(luma) {
        return Err(Refusal::Score);
    }
    Ok(())
}

// A card added to totals: `luma` has its refined scores, one a module. What is answered can be handed in again, and
// where t are the totals of some cards it is the totals of these and the card. Refused: 6, 18, 19.
pub fn add_card(t: Totals, luma: &[f32]) -> Result<Totals, Refusal>
    ensures { (said result ≡ call.add_card_of t luma.now) × call.CardAdded t luma.now }
{
    check_card(t, luma)?;
    Ok(add_scores(t, luma))
}

// ---- two batches

// Sentence 18, of two batches.
#[tactic(auto, unfolding(crate::specs::Calls::too_many, crate::specs::Batch::bad_totals))]
fn too_many(a: Totals, b: Totals) -> bool
    ensures { result ≡ call.too_many a b }
{
    bad_totals(a) || bad_totals(b) || 65535 < a.cards + b.cards
}

// The totals of two batches added. What is answered can be handed in again, and where a and b are the totals of some
// cards it is the totals of them all, in any order and however they are split. Refused: 18.
#[tactic(auto, using(crate::proofs::Answers::sums_of_totals))]
pub fn add_totals(a: Totals, b: Totals) -> Result<Totals, Refusal>
    ensures { (said result ≡ call.add_totals_of a b) × call.BatchesAdded a b × spec.AddUp }
{
    if too_many(a, b) {
        return Err(Refusal::Totals);
    }
    Ok(a.plus(b))
}

// ---- the mean

// The greatest common divisor, by Euclid: the remainder takes the place of the smaller until none is left.
fn gcd(a: u64, b: u64) -> u64
    ensures { result ≡ average.gcd a b }
{
    let (mut x, mut y) = (a, b);
    while y != 0 {
        (x, y) = (y, x % y);
    }
    x
}

// The mean of totals that sentence 18 lets pass.
#[tactic(auto, using(crate::proofs::Divisor::ratios))]
fn reduced(t: Totals) -> Ratio
    ensures { result ≡ average.ratio_of t }
{
    if t.modules == 0 {
        return Ratio {
            numerator: 0,
            denominator: 1,
        };
    }
    let g = gcd(t.sum, t.modules);
    Ratio {
        numerator: t.sum / g,
        denominator: t.modules / g,
    }
}

// The mean magnitude in 65,536ths, as two whole numbers without common factor; 0 over 1 with no modules. Refused: 18.
// Twin: of `card::open` by its words alone; each has one test, one refusal and one answer of its own.
#[tactic(auto, using(crate::proofs::Answers::means))]
pub fn mean(t: Totals) -> Result<Ratio, Refusal>
    ensures { (said result ≡ average.mean_of t) × average.MeanLowest t }
{
    if bad_totals(t) {
        return Err(Refusal::Totals);
    }
    Ok(reduced(t))
}
