// The noise record of a capture, measured from references of known colour (demod.rs, `measure`): the median lightness of
// each level, the luma noise about them, and the chroma noise of the colourful references.
//
// References are flat floats, eight each: x, y, the observed colour, the nominal colour.
//
//     let mut scratch = [0.0f32; 1024];
//     match measure::measure_flat(&flat, 21, model, &palette, hues, &mut scratch) { .. }      // up to 256 references
//
// Beside the record stands how many of the references were corrected by a gain that was held at 0.05.
#![tactic(auto)]

ghost use Rattle.std.specs.Prelude.{◌≡◌, true, false, ◌++◌, map, ◌+◌, ◌*◌, ◌<◌, ◌≤◌, length, take};
ghost use Rattle.sentences.specs.Sentences.{refusal};
ghost use Rattle.answers.specs.Answers.{outcome_number, said};
ghost use Rattle.color.specs.Color.{linear_to_lab};
ghost use Rattle.order.specs.Median.{median_of};
ghost use Rattle.references.specs.References.{wild_colours};
ghost use Rattle.measure.specs.Measure as spec;
ghost use Rattle.measure.specs.Measure.{final, request, flat_request};
ghost use Rattle.measure.specs.Columns as column;
ghost use Rattle.measure.specs.Ready.{Scratch, Singles};

use answers::Refusal;
use color::palette::Palette;
use color::{Lab, Linear};
use illum::{Corrector, IlluminationModel};
use references::References;
use stats::ChannelStats;

// The noise record, and how many of the references have a mark: a channel's gain, where they stand, was held at 0.05. Under 8
// references none is corrected, and the count is 0.
#[repr(C)]
#[derive(Clone, Copy, Debug)]
pub struct Measurement {
    pub noise: ChannelStats,
    pub held: usize,
}

// ---- one reference

// Whether a nominal colour says anything about chroma noise, by a chroma above 20: white and black would report a hue error that is
// only a lightness error. No root is taken: a larger number has no smaller root, and 400.00003 is the largest whose root rounds to 20.
fn colourful(nominal: Lab) -> bool
    ensures { result ≡ spec.colourful nominal }
{
    nominal.a * nominal.a + nominal.b * nominal.b > 400.00003
}

// ---- the columns of the scratch: room for one list, the corrected lightness, the chroma error and the mark of each reference

// The mark of a reference: from 1 to 2 its lightness counts for the dark level, from 5 to 6 for the light one; from 2 to 5 its
// chroma error counts, up to 3 for the dark level and from 4 on for the light one.
#[tactic(auto, unfolding(crate::specs::Columns::mark_of))]
fn mark_of(near: bool, light: bool, colourful: bool) -> f32
    ensures { result ≡ column.mark_of near light colourful }
{
    match (near, light, colourful) {
        (false, _, false) => 0.0,
        (true, false, false) => 1.0,
        (true, false, true) => 2.0,
        (false, false, true) => 3.0,
        (false, true, true) => 4.0,
        (true, true, true) => 5.0,
        (true, true, false) => 6.0,
    }
}

// ---- the nominal colours that were seen. References have few of them, a palette's, black and white, and each costs three cube
// roots: so what was found out is kept, in 256 slots of six numbers, a colour and what is known of it. An empty slot has a NaN
// first.

// What is known of a nominal colour: a and b of its Lab, and the mark of a reference that has it.
#[derive(Clone, Copy, Debug)]
struct Known {
    a: f32,
    b: f32,
    mark: f32,
}

// The bit pattern of a float; 0 of a NaN.
fn pattern(x: f32) -> u64
    ensures { result < 0x1_0000_0000 }
{
    if x.is_nan() {
        0
    } else {
        u64::from(f32::to_bits(x))
    }
}

// The slot of a colour. Any will do: one that two colours share is found out anew where they take turns.
// By hand: From has no conversion from u64 to usize.
fn slot_of(c: Linear) -> usize
    ensures { result < 256 }
{
    ((pattern(c.r) + 3 * pattern(c.g) + 5 * pattern(c.b)) / 4096 % 256) as usize
}

// Only where two floats are one, bit for bit, as +0 and -0 are not; a NaN is taken for no other.
fn same(a: f32, b: f32) -> bool
    ensures { result ≡ true → column.Same a b }
{
    a == b && f32::to_bits(a) == f32::to_bits(b)
}

// Only where slot j holds this colour.
fn holds(memo: &[f32; 1536], j: usize, c: Linear) -> bool
    requires { j < 256 }
    ensures { result ≡ true → column.Held j c memo.now }
{
    same(memo[6 * j], c.r) && same(memo[6 * j + 1], c.g) && same(memo[6 * j + 2], c.b)
}

// Writes a colour, and what is known of it, into slot j.
fn keep(memo: &mut [f32; 1536], j: usize, c: Linear, known: Known)
    requires { j < 256 }
    ensures { memo.new ≡ column.kept j c known memo.old }
{
    memo[6 * j] = c.r;
    memo[6 * j + 1] = c.g;
    memo[6 * j + 2] = c.b;
    memo[6 * j + 3] = known.a;
    memo[6 * j + 4] = known.b;
    memo[6 * j + 5] = known.mark;
}

// A palette, and the lightness between its two levels.
#[derive(Clone, Copy, Debug)]
struct Levels<'a> {
    palette: Palette<'a>,
    middle: f32,
    ghost between: { middle ≡ spec.middle palette.numbers.now },
}

impl<'a> Levels<'a> {
    // Those of a palette.
    #[tactic(auto, unfolding(crate::specs::Measure::middle), using(color::proofs::Numbers::n2))]
    fn new(palette: Palette<'a>) -> Levels<'a>
        ensures { result.palette.numbers.now ≡ palette.entry.numbers.now }
    {
        let middle = (palette.level(0) + palette.level(1)) / 2.0;
        Levels { palette, middle }
    }

    // Whether a nominal colour is of the light level.
    #[tactic(auto, unfolding(crate::specs::Measure::is_light))]
    fn is_light(&self, nominal: Lab) -> bool
        ensures { result ≡ spec.is_light self.now.palette.numbers.now nominal }
    {
        nominal.l >= self.middle
    }

    // The lightness of its level.
    #[tactic(auto, unfolding(crate::specs::Measure::level_at))]
    fn level_at(&self, nominal: Lab) -> f32
        ensures { result ≡ spec.level_at self.now.palette.numbers.now nominal }
    {
        if self.is_light(nominal) {
            self.palette.level(1)
        } else {
            self.palette.level(0)
        }
    }

    // Whether its lightness is at most 12 from that of its level.
    #[tactic(auto, unfolding(crate::specs::Measure::at_level), using(color::proofs::Numbers::n12))]
    fn at_level(&self, nominal: Lab) -> bool
        ensures { result ≡ spec.at_level self.now.palette.numbers.now nominal }
    {
        float::abs(nominal.l - self.level_at(nominal)) <= 12.0
    }

    // The mark of a reference with this nominal colour.
    #[tactic(auto, unfolding(crate::specs::Columns::mark_for))]
    fn mark_for(&self, nominal: Lab) -> f32
        ensures { result ≡ column.mark_for self.now.palette.numbers.now nominal }
    {
        mark_of(
            self.at_level(nominal),
            self.is_light(nominal),
            colourful(nominal),
        )
    }

    // Finds out what is known of a nominal colour.
    #[tactic(auto, unfolding(crate::specs::Columns::known_of))]
    fn known_of(&self, c: Linear) -> Known
        ensures { result ≡ column.known_of self.now.palette.numbers.now c }
    {
        let nominal = color::linear_to_lab(c);
        Known {
            a: nominal.a,
            b: nominal.b,
            mark: self.mark_for(nominal),
        }
    }

    // What is known of it: from its slot, or found out and kept there.
    fn recall(&self, c: Linear, memo: &mut [f32; 1536]) -> Known
        requires { column.Remembered self.now.palette.numbers.now memo.old }
        ensures { (result ≡ column.known_of self.now.palette.numbers.now c) × column.Remembered self.now.palette.numbers.now memo.new }
    {
        let j = slot_of(c);
        if holds(memo, j, c) {
            return Known {
                a: memo[6 * j + 3],
                b: memo[6 * j + 4],
                mark: memo[6 * j + 5],
            };
        }
        let known = self.known_of(c);
        keep(memo, j, c, known);
        known
    }
}

// ---- the columns are written
// Facts: the scratch stands in each clause, since a struct that held it would have to keep its ghost name in each.

// Writes three numbers of reference i of n, each into its column.
fn place(n: usize, i: usize, a: f32, b: f32, c: f32, s: &mut [f32])
    requires { (i < n) × Scratch n s.old }
    ensures { s.new ≡ column.placed n i a b c s.old }
{
    s[n + i] = a;
    s[2 * n + i] = b;
    s[3 * n + i] = c;
}

// Writes the corrected colours of all n, a component in each column, and says how many of them have a mark.
// By index: a turn writes to three columns of one slice, which no iterator lends at once.
fn correct(model: IlluminationModel, references: &References, s: &mut [f32]) -> usize
    requires { Scratch references.now.n s.old }
    ensures { column.Corrected model references.now.flat.now references.now.n 0 references.now.n s.new × (result ≡ spec.held_of model references.now.flat.now references.now.n) }
{
    let n = references.n;
    let mut held = 0;
    for i in 0..n {
        let d = illum::unshade(model, references.seen(i));
        held = illum::count_held(d, held);
        let m = illum::mix(model, d);
        place(n, i, m.colour.r, m.colour.g, m.colour.b, s);
    }
    held
}

// Writes the three numbers of reference i of n over its corrected colour, the chroma error squared. A reference whose mark is 0, as
// white and black cells of a card's border have it, counts for no list: its other numbers are 0, since finding them out would take
// three cube roots.
fn note_at(
    levels: &Levels,
    references: &References,
    i: usize,
    s: &mut [f32],
    memo: &mut [f32; 1536],
)
    requires { (i < references.now.n) × Scratch references.now.n s.old × column.Remembered levels.now.palette.numbers.now memo.old }
    ensures { (s.new ≡ column.noted (linear_to_lab (column.colour_at references.now.n i s.old)) levels.now.palette.numbers.now references.now.flat.now references.now.n i s.old) × column.Remembered levels.now.palette.numbers.now memo.new }
{
    let n = references.n;
    let nominal = levels.recall(references.nominal(i), memo);
    if nominal.mark == 0.0 {
        place(n, i, 0.0, 0.0, nominal.mark, s);
        return;
    }
    let corrected = color::linear_to_lab(Linear {
        r: s[n + i],
        g: s[2 * n + i],
        b: s[3 * n + i],
    });
    let da = corrected.a - nominal.a;
    let db = corrected.b - nominal.b;
    place(n, i, corrected.l, da * da + db * db, nominal.mark, s);
}

// Writes them of all n over the corrected colours.
// By index: a turn writes to three columns of one slice, which no iterator lends at once.
fn convert(palette: Palette, references: &References, s: &mut [f32])
    requires { Scratch references.now.n s.old }
    ensures { column.Converted palette.entry.numbers.now references.now.flat.now references.now.n references.now.n s.old s.new }
{
    let levels = Levels::new(palette);
    let empty = 0.0f32 / 0.0f32;
    let mut memo = [empty; 1536];
    for i in 0..references.n {
        note_at(&levels, references, i, s, &mut memo);
    }
}

// Takes the roots of the squared chroma errors.
fn roots(n: usize, s: &mut [f32])
    requires { Scratch n s.old }
    ensures { column.Rooted n n s.old s.new }
{
    for x in s[2 * n..3 * n].iter_mut() {
        *x = float::sqrt(*x);
    }
}

// Writes them of all n: all are corrected, then converted, and then the roots are taken, which takes less time than one loop that
// does it all. Says how many have a mark.
fn note(model: IlluminationModel, palette: Palette, references: &References, s: &mut [f32]) -> usize
    requires { Scratch references.now.n s.old }
    ensures { column.Noted model palette.entry.numbers.now references.now.flat.now references.now.n references.now.n (spec.error_at model references.now.flat.now) s.new × (result ≡ spec.held_of model references.now.flat.now references.now.n) }
{
    let held = correct(model, references, s);
    convert(palette, references, s);
    roots(references.n, s);
    held
}

// ---- the lists

// The form in which a number is listed: as it is, or less l.
#[derive(Clone, Copy, Debug)]
enum Form {
    Plain,
    Less(f32),
}

#[tactic(auto, unfolding(crate::specs::Columns::formed))]
fn formed(form: Form, v: f32) -> f32
    ensures { result ≡ column.formed form v }
{
    match form {
        Form::Plain => v,
        Form::Less(l) => v - l,
    }
}

// Whether a mark is from lo to hi.
#[tactic(auto, unfolding(crate::specs::Columns::marked))]
fn marked(lo: f32, hi: f32, mark: f32) -> bool
    ensures { result ≡ column.marked lo hi mark }
{
    lo <= mark && mark <= hi
}

// The scaled median absolute deviation of a list, at least 0.75. The distances are taken in the order in which the median leaves
// the values: their own median does not depend on it where none is a NaN.
fn sigma_in(values: &mut [f32]) -> f32
    requires { column.RealDistances values.old }
    ensures { result ≡ spec.raised_sigma values.old }
{
    let m = order::median(values);
    order::deviate_in(values, m);
    float::max(1.4826 * order::median(values), 0.75)
}

// The columns of n references: the corrected lightness, the chroma error and the mark of each. Lists are made of them in a room of n
// floats, which holds those of both levels.
// Facts: the room's length stands in each clause, since a struct that held the room would have to keep its ghost name in each.
#[derive(Clone, Copy, Debug)]
struct Columns<'a> {
    numbers: &'a [f32],
    n: usize,
    ghost three: { length numbers.now ≡ 3 * n },
    ghost few: { n ≤ 16384 },
    ghost fit: { length (column.level_within false n numbers.now) + length (column.level_within true n numbers.now) ≤ n },
}

impl Columns<'_> {
    // Lists the number of reference i in a column, where its mark is from lo to hi: k were listed before, and one more may be after.
    // It is written at place k whatever its mark, as long as that is in the room, and counted where the mark says so: what stands
    // at place k and after is of no use, and a branch on the mark would often be guessed wrong.
    fn list_at(
        &self,
        room: &mut [f32],
        at: usize,
        lo: f32,
        hi: f32,
        form: Form,
        i: usize,
        k: usize,
    ) -> usize
        requires { (i < self.now.n) × (at ≤ self.now.n) × (length room.old ≡ self.now.n) }
        ensures { column.listed room.new result ≡ column.list_entry self.now.n at lo hi form self.now.numbers.now i k room.old }
    {
        let counts = marked(lo, hi, self.numbers[2 * self.n + i]);
        if k < self.n {
            room[k] = formed(form, self.numbers[at + i]);
            if counts {
                return k + 1;
            }
        }
        k
    }

    // Lists the numbers of a column whose mark is from lo to hi after the first k of the room, and says how many are listed then.
    // By index: the list's law is of places in the whole slice, which the pairs of two zipped columns do not have.
    fn list(&self, room: &mut [f32], at: usize, lo: f32, hi: f32, form: Form, k: usize) -> usize
        requires { (at ≤ self.now.n) × (length room.old ≡ self.now.n) × (k + length (column.picked_in self.now.n at lo hi self.now.numbers.now) ≤ self.now.n) }
        ensures { (take result room.new ≡ take k room.old ++ map (column.formed form) (column.picked_in self.now.n at lo hi self.now.numbers.now)) × (result ≡ k + length (column.picked_in self.now.n at lo hi self.now.numbers.now)) × (result ≤ self.now.n) }
    {
        let mut r = k;
        for i in 0..self.n {
            r = self.list_at(room, at, lo, hi, form, i, r);
        }
        r
    }

    // Lists the lightnesses of the dark level less l0, then those of the light level less l1, and says how many they are.
    fn list_levels(&self, room: &mut [f32], l0: f32, l1: f32) -> usize
        requires { length room.old ≡ self.now.n }
        ensures { (take result room.new ≡ column.spread_in self.now.n l0 l1 self.now.numbers.now) × (result ≤ self.now.n) }
    {
        let k = self.list(room, 0, 1.0, 2.0, Form::Less(l0), 0);
        self.list(room, 0, 5.0, 6.0, Form::Less(l1), k)
    }

    // The luma noise about the levels' medians l0 and l1.
    fn luma_sigma(&self, room: &mut [f32], l0: f32, l1: f32) -> f32
        requires { (length room.old ≡ self.now.n) × column.RealDistances (column.spread_in self.now.n l0 l1 self.now.numbers.now) }
        ensures { result ≡ spec.luma_sigma l0 l1 (column.level_within false self.now.n self.now.numbers.now) (column.level_within true self.now.n self.now.numbers.now) }
    {
        let k = self.list_levels(room, l0, l1);
        sigma_in(&mut room[..k])
    }

    // The chroma noise of the references whose mark is from lo to hi; `other` where there are fewer than `least`.
    fn chroma_sigma(&self, room: &mut [f32], lo: f32, hi: f32, least: usize, other: f32) -> f32
        requires { (length room.old ≡ self.now.n) × column.RealDistances (column.picked_in self.now.n self.now.n lo hi self.now.numbers.now) }
        ensures { result ≡ spec.chroma_sigma least other (column.picked_in self.now.n self.now.n lo hi self.now.numbers.now) }
    {
        let k = self.list(room, self.n, lo, hi, Form::Plain, 0);
        if k < least {
            return other;
        }
        sigma_in(&mut room[..k])
    }

    // ---- the record

    // The median lightness of the level whose references are marked from lo to hi; none of fewer than 3.
    fn level_of(&self, room: &mut [f32], lo: f32, hi: f32) -> Option<f32>
        requires { length room.old ≡ self.now.n }
        ensures { result ≡ column.levelled (column.picked_in self.now.n 0 lo hi self.now.numbers.now) }
    {
        let count = self.list(room, 0, lo, hi, Form::Plain, 0);
        if count < 3 {
            return None;
        }
        Some(order::median(&mut room[..count]))
    }

    // The record of the levels' medians and the columns.
    fn figures_of(&self, room: &mut [f32], l0: f32, l1: f32) -> ChannelStats
        requires { (length room.old ≡ self.now.n) × column.RealSpreads self.now.n l0 l1 self.now.numbers.now }
        ensures { result ≡ column.figures_in self.now.n l0 l1 self.now.numbers.now }
    {
        let sigma_l = self.luma_sigma(room, l0, l1);
        let sigma_ab = self.chroma_sigma(room, 2.0, 5.0, 1, 0.75);
        let sigma_ab_dark = self.chroma_sigma(room, 2.0, 3.0, 8, 0.0);
        let sigma_ab_light = self.chroma_sigma(room, 4.0, 5.0, 8, 0.0);
        ChannelStats {
            l0,
            l1,
            sigma_l,
            sigma_ab,
            sigma_ab_dark,
            sigma_ab_light,
            samples: self.n as u32,
        }
    }

    // The record of the columns; `nominal` with fewer than 3 of a level.
    fn record_of(&self, palette: Palette, room: &mut [f32]) -> ChannelStats
        requires { (length room.old ≡ self.now.n) × column.RealSpreads self.now.n (median_of (column.level_within false self.now.n self.now.numbers.now)) (median_of (column.level_within true self.now.n self.now.numbers.now)) self.now.numbers.now }
        ensures { result ≡ column.record_in palette.entry.numbers.now self.now.n self.now.numbers.now }
    {
        let Some(l0) = self.level_of(room, 1.0, 2.0) else {
            return ChannelStats::nominal_of(palette.numbers);
        };
        let Some(l1) = self.level_of(room, 5.0, 6.0) else {
            return ChannelStats::nominal_of(palette.numbers);
        };
        self.figures_of(room, l0, l1)
    }
}

// The record of references that the sentences let pass, with the count of those that have a mark; `nominal` and 0 of fewer than 8.
// The numbers in s are of no use after.
fn measurement_of(
    model: IlluminationModel,
    palette: Palette,
    references: &References,
    s: &mut [f32],
) -> Measurement
    requires singles { Singles references.now.flat.now }
    requires scratch { Scratch references.now.n s.old }
    requires passed { (wild_colours references.now.flat.now references.now.n ≡ false) × (spec.bad_corrected model references.now.flat.now references.now.n ≡ false) }
    ensures { result ≡ spec.measurement model palette.entry.numbers.now references.now.flat.now references.now.n }
{
    if references.n < 8 {
        return Measurement {
            noise: ChannelStats::nominal_of(palette.numbers),
            held: 0,
        };
    }
    let held = note(model, palette, references, s);
    let (room, numbers) = s.split_at_mut(references.n);
    let columns = Columns {
        numbers,
        n: references.n,
    };
    let noise = columns.record_of(palette, room);
    Measurement { noise, held }
}

// ---- the sentences
// Slices: the C interface lends them so, and the calls below too.

// Sentence 5: the palette or the scratch is too short.
#[tactic(auto, unfolding(crate::specs::Measure::too_short))]
fn too_short(palette: &[f32], hues: usize, lent: usize, n: usize) -> bool
    ensures { result ≡ spec.too_short false palette.now hues lent n }
{
    stats::short_palette(palette, hues) || references::short_scratch(lent, n)
}

// Sentence 8: a colour of a reference or a number of the palette is wild.
#[tactic(auto, unfolding(crate::specs::Measure::wild_numbers))]
fn wild_numbers(references: &References, palette: &Palette) -> bool
    ensures { result ≡ spec.wild_numbers references.now.flat.now references.now.n palette.now.numbers.now palette.now.hues }
{
    references.wild_colours() || palette.is_wild()
}

// The corrected colour of one of the references is wild.
fn wild_corrected(model: IlluminationModel, references: &References) -> bool
    ensures { result ≡ spec.wild_corrected model references.now.flat.now references.now.n }
{
    let corrector = Corrector::new(&model);
    (0..references.n).any(
        |i|
            requires { i < references.now.n }
            ensures { result ≡ spec.wild_corrected_at corrector.entry.model.now references.entry.now.flat.now i }
        { corrector.breaks(references.seen(i)) },
    )
}

// Sentence 12; fewer than 8 references are not corrected.
#[tactic(auto, unfolding(crate::specs::Measure::bad_corrected))]
fn bad_corrected(model: IlluminationModel, references: &References) -> bool
    ensures { result ≡ spec.bad_corrected model references.now.flat.now references.now.n }
{
    8 <= references.n && wild_corrected(model, references)
}

// Refuses by the first sentence that holds.
fn check(
    flat: &[f32],
    n: usize,
    side: usize,
    model: IlluminationModel,
    palette: &[f32],
    hues: usize,
    lent: usize,
) -> Result<(), Refusal>
    requires { n ≤ 16384 → 8 * n ≤ length flat.now }
    ensures { outcome_number result ≡ refusal (spec.sentences_for flat.now false n side model palette.now hues lent) }
{
    if limits::bad_side(side) {
        return Err(Refusal::Side);
    }
    if limits::bad_hues(hues) {
        return Err(Refusal::Hues);
    }
    if too_short(palette, hues, lent, n) {
        return Err(Refusal::Length);
    }
    references::check_references(side, flat, n)?;
    let references = References { flat, n };
    let numbers = palette;
    if wild_numbers(&references, &Palette { numbers, hues }) {
        return Err(Refusal::Number);
    }
    if illum::bad_model(model) {
        return Err(Refusal::Model);
    }
    if bad_corrected(model, &references) {
        return Err(Refusal::Corrected);
    }
    Ok(())
}

// ---- the calls
// Slices: as the C interface lends them.

// Core: measures n references, which stand in flat where there are no more than 16,384 of them. Refused by 2, 3, 5 (the palette
// or scratch too short), 6, 7, 8, 10 and 12.
pub fn measure_counted(
    flat: &[f32],
    n: usize,
    side: usize,
    model: IlluminationModel,
    palette: &[f32],
    hues: usize,
    scratch: &mut [f32],
) -> Result<Measurement, Refusal>
    requires { n ≤ 16384 → 8 * n ≤ length flat.now }
    ensures { final (said result) scratch.new ≡ spec.measure_of (request flat.now false n side model palette.now hues scratch.old) }
{
    check(flat, n, side, model, palette, hues, scratch.len())?;
    let references = References { flat, n };
    let numbers = palette;
    let palette = Palette { numbers, hues };
    let measurement = measurement_of(model, palette, &references, &mut scratch[..4 * n]);
    references::clear(scratch, 4 * n);
    Ok(measurement)
}

// Measures the noise record from references in flat floats, eight each, for a card of this side, corrected by the model. With
// fewer than 8 references, or fewer than 3 of a level, it is `nominal`. Beside it stands how many of the references have a mark,
// where 8 or more are corrected, `nominal` or not. Scratch of 4 × references is all zero afterwards, and
// its tail stays. Refused by 2, 3, 5 (flat no multiple of eight long, the palette or scratch too short), 6, 7, 8, 10 and 12;
// scratch is untouched then.
pub fn measure_flat(
    flat: &[f32],
    side: usize,
    model: IlluminationModel,
    palette: &[f32],
    hues: usize,
    scratch: &mut [f32],
) -> Result<Measurement, Refusal>
    ensures { final (said result) scratch.new ≡ spec.measure_of (flat_request flat.now side model palette.now hues scratch.old) }
{
    if flat.len() % 8 == 0 {
        return measure_counted(flat, flat.len() / 8, side, model, palette, hues, scratch);
    }
    if limits::bad_side(side) {
        return Err(Refusal::Side);
    }
    if limits::bad_hues(hues) {
        return Err(Refusal::Hues);
    }
    Err(Refusal::Length)
}
