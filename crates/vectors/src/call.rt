// The words of one record: the inputs, which a call takes one after the other, and its answers, which are put one after
// the other.
ghost use Rattle.std.specs.Prelude.{◌≡◌, ℕ, ◌<◌, ◌++◌, min, length, drop, slice_index, slice_index_or};
ghost use Rattle.std.specs.Borrow.{sem, Array, LendsBoth};
ghost use Rattle.vectors.specs.Answers.{placed, put, no_answers, compared_of};
ghost use Rattle.vectors.specs.Slices.{past_list, put_all, stored};

use super::value::Value;
use super::{Compared, Record};

// How many answers a record has room for.
pub const ROOM: usize = 4096;

// What stands behind the first n elements of a list.
pub fn past<T>(list: &[T], n: usize) -> &[T]
    ensures { result.now ≡ drop n list.now }
{
    list.get(n..).unwrap_or(&[])
}

// Puts into each place of `out` what the word at that place of a row stands for, and what 0 stands for past the row's end.
fn load<T: Value>(row: &[u64], out: &mut [T])
    ensures { (k : ℕ) (d : T) → k < length out.new → slice_index_or out.new k d ≡ T.value_of (slice_index row.now k) }
{
    for (k, x) in out.iter_mut().enumerate() {
        *x = T::of_word(super::word_at(row, k));
    }
}

// Puts v into the first n places of a room, or into all where it has fewer, and says how many these are. What stands behind
// them stays.
pub fn fill<T: Copy>(room: &mut [T], n: usize, v: T) -> usize
    ensures count { result ≡ min n (length room.old) }
    ensures values { (k : ℕ) (d : T) → k < result → slice_index_or room.new k d ≡ v }
    ensures behind { drop result room.new ≡ drop result room.old }
{
    let count = super::smaller(n, room.len());
    let front = &mut room[..count];
    for x in front.iter_mut() {
        *x = v;
    }
    count
}

// The first n places of a room, or all where it has fewer, each with v in it: memory that is lent to a call. What stands
// behind them is the second part, as it was.
pub fn spread<T: Copy>(room: &mut [T], n: usize, v: T) -> (&mut [T], &mut [T])
    ensures* writes_back { sem 𝓛 (LendsBoth (Array T.row 0) (Array T.row 0) (Array T.row 0) room.entry result ◌++◌) }
    ensures len { length result.0.now ≡ min n (length room.old) }
    ensures values { (k : ℕ) (d : T) → k < length result.0.now → slice_index_or result.0.now k d ≡ v }
    ensures behind { result.1.now ≡ drop (length result.0.now) room.old }
{
    let count = fill(room, n, v);
    room.split_at_mut(count)
}

// The inputs of a record that are not taken yet.
#[derive(Clone, Copy, Debug)]
pub struct Inputs<'a> {
    pub rest: &'a [u64],
}

impl<'a> Inputs<'a> {
    // All words of a row.
    pub fn new(row: &'a [u64]) -> Inputs<'a>
        ensures { result.rest.now ≡ row.now }
    {
        Inputs { rest: row }
    }

    // Takes the next word as a value; where there is none, it is 0.
    pub fn take<T: Value>(&mut self) -> T
        ensures value { result ≡ T.value_of (slice_index self.old.rest.now 0) }
        ensures rest { self.new.rest.now ≡ drop 1 self.old.rest.now }
    {
        let Some((&word, rest)) = self.rest.split_first() else {
            return T::of_word(0);
        };
        self.rest = rest;
        T::of_word(word)
    }

    // Takes a word for each place of `out`, as the place's value.
    pub fn take_all<T: Value>(&mut self, out: &mut [T])
        ensures values { (k : ℕ) (d : T) → k < length out.new → slice_index_or out.new k d ≡ T.value_of (slice_index self.old.rest.now k) }
        ensures rest { self.new.rest.now ≡ drop (length out.old) self.old.rest.now }
    {
        load(self.rest, out);
        self.rest = past(self.rest, out.len());
    }

    // Takes the next list, a length and then its elements: as many as `room` has place for are put at its start. Says how
    // many these are. An element whose word is not there is 0, and what stands behind them stays.
    pub fn load<T: Value>(&mut self, room: &mut [T]) -> usize
        ensures count { result ≡ min (slice_index self.old.rest.now 0) (length room.old) }
        ensures values { (k : ℕ) (d : T) → k < result → slice_index_or room.new k d ≡ T.value_of (slice_index (drop 1 self.old.rest.now) k) }
        ensures behind { drop result room.new ≡ drop result room.old }
        ensures rest { self.new.rest.now ≡ past_list self.old.rest.now }
    {
        let count = self.take();
        let n = super::smaller(count, room.len());
        load(self.rest, &mut room[..n]);
        self.rest = past(self.rest, count);
        n
    }
}

// The answers of a record so far: a word each, and how many these are. Past `ROOM` of them there is no place.
// Slices: a record takes no heap, and the contracts are over a row of words of fixed room, whose front these fill.
#[derive(Clone, Copy, Debug)]
pub struct Answers {
    pub words: [u64; ROOM],
    pub count: usize,
}

impl Answers {
    // Nothing answered yet.
    #[tactic(auto, unfolding(crate::specs::Answers::no_answers))]
    pub fn new() -> Answers
        ensures { placed result.count result.words ≡ no_answers }
    {
        Answers {
            words: [0; ROOM],
            count: 0,
        }
    }

    // Puts a value's word.
    pub fn put<T: Value>(&mut self, value: T)
        ensures { placed self.new.count self.new.words ≡ put (T.word_of value) (placed self.old.count self.old.words) }
    {
        self.count = super::put(&mut self.words, self.count, value.word());
    }

    // Puts each of some values, one after the other. d stands where there is none, and is never put.
    pub fn put_all<T: Value>(&mut self, values: &[T])
        ensures { (d : T) → placed self.new.count self.new.words ≡ put_all T.word_of d values.now (placed self.old.count self.old.words) }
    {
        for &v in values {
            self.put(v);
        }
    }

    // Puts a list: its length, and then its elements.
    pub fn put_list<T: Value>(&mut self, values: &[T])
        ensures { (d : T) → placed self.new.count self.new.words ≡ stored T.word_of d values.now (placed self.old.count self.old.words) }
    {
        self.put(values.len());
        self.put_all(values);
    }

    // Compares the answers with those that a record wants, whose line begins at `at`.
    pub fn compare(
        &self,
        function: Option<usize>,
        at: usize,
        read: Record,
        wanted: &[u64],
    ) -> Compared
        ensures { result ≡ compared_of function at read wanted.now self.now.words self.now.count }
    {
        super::compare(function, at, read, wanted, &self.words, self.count)
    }
}
