// Which of the kept references stand near a module: the three nearest, all within a radius, or all that a column cuts off.
// References are their positions alone, two floats each, x and y, with a mark each that says whether it was kept.
//
//     let mut places = [0u32; 64];
//     match near::near(&xy, &kept, 21, 10, 10, Query::Nearest, &mut places) { .. }      // up to 64 references
//
// A list runs from the nearest on, and of equal distances the earlier reference comes first. That is a strict order, so
// the list is the only one with these places in this order, however it is found.
#![tactic(auto)]

ghost use Rattle.std.specs.Prelude.{◌≡◌, true, ◌+◌, ◌*◌, ◌/◌, ◌<◌, ◌≤◌, length, get_or};
ghost use Rattle.sentences.specs.Sentences.{refusal};
ghost use Rattle.answers.specs.Answers.{outcome_number, said};
ghost use Rattle.near.specs.Order as order;
ghost use Rattle.near.specs.Near as spec;
ghost use Rattle.near.specs.Seen as seen;
ghost use Rattle.near.specs.declared.Query.TheVariants as query;

mod search;

use answers::Refusal;
use search::Search;

// What is asked of the kept references: the three nearest, all within a radius, or all that a column cuts off.
#[derive(Clone, Copy, Debug)]
pub enum Query {
    Nearest,
    Within(f32),
    CutOff(i32),
}

// ---- distances

// The centre of the module, or of the column, at v: half a module on.
#[tactic(auto, using(crate::proofs::Literals::half_is), unfolding(crate::specs::Near::centre))]
fn centre(v: i32) -> f64
    ensures { result ≡ spec.centre v }
{
    f64::from(v) + 0.5
}

// Whether a is at most c, and c at most b.
#[tactic(auto, unfolding(crate::specs::Near::rising))]
fn rising(a: f64, c: f64, b: f64) -> bool
    ensures { result ≡ spec.rising a c b }
{
    a <= c && c <= b
}

// Whether c is at or between a and b.
#[tactic(auto, unfolding(crate::specs::Near::between))]
fn between(a: f64, c: f64, b: f64) -> bool
    ensures { result ≡ spec.between a c b }
{
    rising(a, c, b) || rising(b, c, a)
}

// A place as an index.
fn wide(i: u32) -> usize
    ensures { result ≡ i }
{
    // By hand: From has no conversion from u32 to usize.
    i as usize
}

impl Search<'_> {
    // The squared distance of reference i from the centre.
    #[tactic(auto, unfolding(crate::specs::Near::distance))]
    fn distance(self, i: usize) -> f64
        requires { i < self.n }
        ensures { result ≡ seen.distance self.entry i }
    {
        let dx = float::widen(self.xy[2 * i]) - self.cx;
        let dy = float::widen(self.xy[2 * i + 1]) - self.cy;
        dx * dx + dy * dy
    }

    // Whether reference i comes before reference j.
    #[tactic(auto, unfolding(crate::specs::Near::before))]
    fn before(self, i: usize, j: usize) -> bool
        requires { (i < self.n) × (j < self.n) }
        ensures { result ≡ seen.before self.entry i j }
    {
        let a = self.distance(i);
        let b = self.distance(j);
        if a < b {
            return true;
        }
        if a == b {
            return i < j;
        }
        false
    }

    // ---- which references are listed

    // Whether reference i is within the radius.
    #[tactic(auto, unfolding(crate::specs::Near::asked))]
    fn within(self, radius: f32, i: usize) -> bool
        requires { i < self.n }
        ensures { result ≡ spec.asked (query.Within radius) self.entry.xy.now self.entry.cx self.entry.cy i }
    {
        let r = float::widen(radius);
        self.distance(i) <= r * r
    }

    // Whether the column cuts reference i off.
    #[tactic(auto, unfolding(crate::specs::Near::asked))]
    fn cut_off(self, column: i32, i: usize) -> bool
        requires { i < self.n }
        ensures { result ≡ spec.asked (query.CutOff column) self.entry.xy.now self.entry.cx self.entry.cy i }
    {
        between(float::widen(self.xy[2 * i]), centre(column), self.cx)
    }

    // Whether reference i is one that the query asks for.
    #[tactic(auto, unfolding(crate::specs::Near::asked))]
    fn asked(self, i: usize) -> bool
        requires { i < self.n }
        ensures { result ≡ spec.asked self.entry.query self.entry.xy.now self.entry.cx self.entry.cy i }
    {
        match self.query {
            Query::Nearest => true,
            Query::Within(radius) => self.within(radius, i),
            Query::CutOff(column) => self.cut_off(column, i),
        }
    }

    // Whether reference i, whose mark this is, is one of them and was kept.
    #[tactic(auto, unfolding(crate::specs::Near::chosen, crate::specs::Near::is_kept))]
    fn chosen(self, i: usize, mark: u8) -> bool
        requires { (i < self.n) × (mark ≡ get_or self.kept.now i 0) }
        ensures { result ≡ seen.chosen self.entry i }
    {
        mark != 0 && self.asked(i)
    }

    // ---- sorting

    // Whether what stands at j comes before what stands at k.
    fn earlier(self, out: &[u32], j: usize, k: usize) -> bool
        requires { (j < length out.now) × (k < length out.now) × (get_or out.now j 0 < self.n) × (get_or out.now k 0 < self.n) }
        ensures { result ≡ seen.before self.entry (get_or out.now j 0) (get_or out.now k 0) }
    {
        self.before(wide(out[j]), wide(out[k]))
    }

    // Moves what stands at k down by steps of `gap`, past all that it comes before.
    fn sift(self, gap: usize, k: usize, out: &mut [u32])
        requires { (0 < gap) × (k < length out.old) × order.Places self.n (k + 1) out.old }
        ensures { order.Sifted (seen.before self.entry) self.entry.n gap k out.old out.new }
    {
        let mut j = k;
        // By index: the place goes down by the gap, as far as the order asks.
        while gap <= j && self.earlier(out, j, j - gap) {
            out.swap(j - gap, j);
            j -= gap;
        }
    }

    // One pass over the first m places; with a gap of 1 it sorts them.
    fn pass(self, gap: usize, m: usize, out: &mut [u32])
        requires { (0 < gap) × (m ≤ length out.old) × order.Places self.n m out.old }
        ensures { order.Passed (seen.before self.entry) self.entry.n gap m m out.old out.new }
    {
        // By index: each turn moves places of the whole list.
        for k in 0..m {
            self.sift(gap, k, out);
        }
    }

    // Sorts the first m places by Shell's passes: each with a gap above 1 brings places near where they belong, and the last,
    // of gap 1, sorts them.
    fn sort(self, m: usize, out: &mut [u32])
        requires { (m ≤ length out.old) × order.Places self.n m out.old }
        ensures { order.Passed (seen.before self.entry) self.entry.n 1 m m out.old out.new }
    {
        for gap in [9841, 3280, 1093, 364, 121, 40, 13, 4] {
            self.pass(gap, m, out);
        }
        self.pass(1, m, out);
    }

    // ---- the lists

    // Lists all chosen references in their order.
    fn list(self, out: &mut [u32]) -> usize
        requires { self.n ≤ length out.old }
        ensures { spec.Collected (seen.chosen self.entry) self.entry.n result out.old out.new }
    {
        let mut m = 0;
        for (i, &mark) in self.kept[..self.n].iter().enumerate() {
            if self.chosen(i, mark) {
                out[m] = i as u32;
                m += 1;
            }
        }
        m
    }

    // Lists all chosen references, the nearest first.
    fn list_all(self, out: &mut [u32]) -> usize
        requires { self.n ≤ length out.old }
        ensures all { spec.All (seen.before self.entry) (seen.chosen self.entry) self.entry.n result out.new }
        ensures upper_bound { (result ≤ self.entry.n) × spec.Rest result out.old out.new }
    {
        let m = self.list(out);
        self.sort(m, out);
        m
    }

    // Puts reference i at place k, and moves it to where it belongs among the first k + 1.
    fn put(self, i: usize, k: usize, out: &mut [u32])
        requires { (i < self.n) × (k < length out.old) × order.Places self.n k out.old }
        ensures { order.Sifted (seen.before self.entry) self.entry.n 1 k (order.placed k i out.old) out.new }
    {
        out[k] = i as u32;
        self.sift(1, k, out);
    }

    // Offers reference i, which is chosen, to the first three, m of which are there.
    fn offer(self, i: usize, m: usize, out: &mut [u32]) -> usize
        requires room { (self.n ≤ length out.old) × (i < self.n) × (m ≤ i) × order.Places self.n m out.old }
        requires chosen { seen.chosen self i ≡ true }
        ensures { spec.Offered (seen.before self.entry) (seen.chosen self.entry) self.entry.n i m out.old result out.new }
    {
        if m < 3 {
            self.put(i, m, out);
            return m + 1;
        }
        if !self.before(i, wide(out[2])) {
            return m;
        }
        self.put(i, 2, out);
        m
    }

    // Lists the first three of the chosen references, all if fewer, the nearest first.
    fn nearest(self, out: &mut [u32]) -> usize
        requires { self.n ≤ length out.old }
        ensures first_three { spec.FirstThree (seen.before self.entry) (seen.chosen self.entry) self.entry.n result out.new }
        ensures upper_bound { (result ≤ self.entry.n) × spec.Rest result out.old out.new }
    {
        let mut m = 0;
        for (i, &mark) in self.kept[..self.n].iter().enumerate() {
            if self.chosen(i, mark) {
                m = self.offer(i, m, out);
            }
        }
        m
    }

    // Lists what the query asks for.
    fn find(self, out: &mut [u32]) -> usize
        requires { self.n ≤ length out.old }
        ensures promised { spec.IsPromised self.entry.query (seen.before self.entry) (seen.chosen self.entry) self.entry.n result out.new }
        ensures upper_bound { (result ≤ self.entry.n) × spec.Rest result out.old out.new }
    {
        match self.query {
            Query::Nearest => self.nearest(out),
            Query::Within(_) => self.list_all(out),
            Query::CutOff(_) => self.list_all(out),
        }
    }
}

// ---- the refusals

// Sentence 5: an odd number of floats, or fewer marks or places than references.
#[tactic(auto, unfolding(crate::specs::Near::short))]
fn short(floats: usize, marks: usize, places: usize) -> bool
    ensures { result ≡ spec.short floats marks places }
{
    floats % 2 != 0 || marks < floats / 2 || places < floats / 2
}

// The ring of a card of at most 1,024 modules a side, in which the module and the column stand.
#[derive(Clone, Copy, Debug)]
struct Ring {
    side: usize,
    ghost most: { side ≤ 1024 },
}

impl Ring {
    // Reference i is misplaced.
    // Twin: of `References::misplaced`, whose positions stand eight floats apart, with their colours.
    #[tactic(auto, unfolding(crate::specs::Near::misplaced_at))]
    fn misplaced(self, xy: &[f32], i: usize) -> bool
        requires { 2 * i + 2 ≤ length xy.now }
        ensures { result ≡ spec.misplaced_at self.side xy.now i }
    {
        references::bad_position(self.side, xy[2 * i])
            || references::bad_position(self.side, xy[2 * i + 1])
    }

    // One of n references is misplaced.
    // Twin: of `References::bad_positions`, as `misplaced`.
    fn bad_positions(self, xy: &[f32], n: usize) -> bool
        requires { 2 * n ≤ length xy.now }
        ensures { result ≡ spec.bad_positions self.side xy.now n }
    {
        (0..n).any(|i| self.misplaced(xy, i))
    }

    // The query's column, where it has one, is outside the ring.
    #[tactic(auto, unfolding(crate::specs::Near::bad_column))]
    fn bad_column(self, query: Query) -> bool
        ensures { result ≡ spec.bad_column self.side query }
    {
        match query {
            Query::Nearest => false,
            Query::Within(_) => false,
            Query::CutOff(column) => places::outside_ring(self.side, column),
        }
    }

    // The module at (x, y), or the query's column, is outside the ring.
    #[tactic(auto, unfolding(crate::specs::Near::bad_module))]
    fn bad_module(self, x: i32, y: i32, query: Query) -> bool
        ensures { result ≡ spec.bad_module self.side x y query }
    {
        places::outside_ring(self.side, x)
            || places::outside_ring(self.side, y)
            || self.bad_column(query)
    }

    // Sentence 7: a reference is misplaced, or the module or the column is outside the ring.
    #[tactic(auto, unfolding(crate::specs::Near::bad_places))]
    fn bad_places(self, xy: &[f32], n: usize, x: i32, y: i32, query: Query) -> bool
        requires { 2 * n ≤ length xy.now }
        ensures { result ≡ spec.bad_places self.side xy.now n x y query }
    {
        self.bad_positions(xy, n) || self.bad_module(x, y, query)
    }
}

// A radius is negative or not finite.
fn wild_radius(r: f32) -> bool
    ensures { result ≡ spec.wild_radius r }
{
    !((0.0 <= r) & (r < f32::INFINITY))
}

// Sentence 15: the query's radius, where it has one, is negative or not finite.
#[tactic(auto, unfolding(crate::specs::Near::bad_radius))]
fn bad_radius(query: Query) -> bool
    ensures { result ≡ spec.bad_radius query }
{
    match query {
        Query::Nearest => false,
        Query::Within(radius) => wild_radius(radius),
        Query::CutOff(_) => false,
    }
}

// Refuses by the first sentence that holds.
#[tactic(auto, unfolding(sentences::specs::Sentences::refusal, crate::specs::Near::sentences_of))]
fn check(
    xy: &[f32],
    kept: &[u8],
    side: usize,
    x: i32,
    y: i32,
    query: Query,
    out: &[u32],
) -> Result<(), Refusal>
    ensures { outcome_number result ≡ refusal (spec.sentences_of (spec.request xy.now kept.now side x y query out.now)) }
{
    if limits::bad_side(side) {
        return Err(Refusal::Side);
    }
    if short(xy.len(), kept.len(), out.len()) {
        return Err(Refusal::Length);
    }
    if references::too_many(xy.len() / 2) {
        return Err(Refusal::Count);
    }
    let ring = Ring { side };
    if ring.bad_places(xy, xy.len() / 2, x, y, query) {
        return Err(Refusal::Place);
    }
    if bad_radius(query) {
        return Err(Refusal::Radius);
    }
    Ok(())
}

// Lists the kept references that the query asks for, seen from the module at (x, y), the nearest first and of equal distances
// the earlier reference: their places in `xy`, counted from 0, at the front of `out`, whose rest stays. The answer is how many.
// `kept` has a byte a reference, 0 for one that was not kept. Refused: 2, 5 (an odd number of floats, or fewer marks or places than
// references), 6, 7 (a reference, kept or not, the module or the column), 15, with `out` as it was.
pub fn near(
    xy: &[f32],
    kept: &[u8],
    side: usize,
    x: i32,
    y: i32,
    query: Query,
    out: &mut [u32],
) -> Result<usize, Refusal>
    ensures out_after { spec.final (said result) out.new ≡ spec.near_of (spec.request xy.now kept.now side x y query out.old) }
    ensures found { (said result).number ≡ 0 → spec.Found (spec.request xy.now kept.now side x y query out.old) out.new }
{
    check(xy, kept, side, x, y, query, out)?;
    let search = Search {
        query,
        xy,
        kept,
        n: xy.len() / 2,
        cx: centre(x),
        cy: centre(y),
    };
    let count = search.find(out);
    Ok(count)
}
