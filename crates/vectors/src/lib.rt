// The lists of inputs and answers that the replay programs go through: the reader of their one format, words as
// numbers and floats, and the report of what differs.
//
// A list is lines of ASCII. A line that begins with `#` is a comment. Every other line is a record,
// `NAME WORD .. = WORD ..`: the function, what goes in, and what must come out. A word is 1 to 16 upper-case
// hexadecimal digits: a float is its bit pattern, a slice its length and then its elements. A NaN answer is
// written 7FC00000 (f32) or 7FF8000000000000 (f64), and `Value::word` writes every NaN so.
//
// One row of words holds the inputs of a record, another the answers that it wants, and a third those got.
// Slices: a text and a place in it, since the format's definitions speak of places, and the report goes back to them.
#![tactic(auto)]

ghost use Rattle.std.specs.Prelude.{◌≡◌, ◌+◌, ◌*◌, ◌%◌, ◌<◌, ◌≤◌, ◌==◌, not, min, length, take, take_while, slice_index, unwrap_or};
ghost use Rattle.vectors.specs.Bytes.{slice, index_of};
ghost use Rattle.vectors.specs.Lines.{byte_at, line_end, next_line, is_comment, name_end, name_of};
ghost use Rattle.vectors.specs.Words as reading;
ghost use Rattle.vectors.specs.Answers as comparing;

mod call;
mod rerun;
mod value;

pub use call::{Answers, Inputs, ROOM, fill, spread};
pub use rerun::{compare_all, load, replay, report};
use std::io;
use std::io::Write;
pub use value::Value;

// The place in a tally of the records that are not read: those with a name that the program does not know, or a broken
// line.
// Number: a tally counts by function in an array, which has this place more than there are functions.
pub const NOT_READ: usize = 31;

// ---- lines and names

// The byte at a place, and 0 past the end.
pub fn byte(text: &[u8], at: usize) -> u8
    ensures { result ≡ byte_at text.now at }
{
    text.get(at).copied().unwrap_or(0)
}

// How many bytes stand before the first `b`, all where there is none.
fn count_before(text: &[u8], b: u8) -> usize
    ensures { result ≡ length (take_while (λ x. not (x == b)) text.now) }
{
    text.iter().take_while(|x| **x != b).count()
}

// The place of the first byte `b` from `at` on, or `to` where none stands before that.
fn find(text: &[u8], at: usize, to: usize, b: u8) -> usize
    requires low { at ≤ to }
    requires high { to ≤ length text.now }
    ensures { result ≡ at + index_of b (slice at to text.now) }
{
    at + count_before(&text[at..to], b)
}

// The place of the first line feed from `at` on, or the end of the text.
pub fn line_end(text: &[u8], at: usize) -> usize
    ensures { result ≡ line_end text.now at }
{
    if text.len() <= at {
        return at;
    }
    find(text, at, text.len(), b'\n')
}

// The place past the line that `at` stands in.
pub fn next_line(text: &[u8], at: usize) -> usize
    ensures { result ≡ next_line text.now at }
{
    if text.len() <= at {
        return at;
    }
    line_end(text, at) + 1
}

// Whether the line that begins at `at` is a comment.
pub fn is_comment(text: &[u8], at: usize) -> bool
    ensures { result ≡ is_comment text.now at }
{
    byte(text, at) == b'#'
}

// Where the name of the record that begins at `at` ends: the first space of its line, or the end of the line.
pub fn name_end(text: &[u8], at: usize) -> usize
    ensures { result ≡ name_end text.now at }
{
    if text.len() <= at {
        return at;
    }
    find(text, at, line_end(text, at), b' ')
}

// The name of the record that begins at `at`.
pub fn name(text: &[u8], at: usize) -> &[u8]
    ensures { result.now ≡ name_of text.now at }
{
    if text.len() < at {
        return &[];
    }
    let end = name_end(text, at);
    &text[at..end]
}

// ---- words

// The value of an upper-case hexadecimal digit.
#[tactic(auto, unfolding(crate::specs::Words::digit_of))]
pub fn digit(b: u8) -> Option<u64>
    ensures value { result ≡ reading.digit_of b }
    ensures small { unwrap_or result 0 < 16 }
{
    match b {
        b'0'..=b'9' => Some(u64::from(b - b'0')),
        b'A'..=b'F' => Some(u64::from(b - b'A') + 10),
        _ => None,
    }
}

// The digits that stand at a place: the number that they spell, of which the last sixteen count, and where they end.
#[derive(Clone, Copy, Debug)]
pub struct Digits {
    pub value: u64,
    pub end: usize,
}

// The digits from `at` on.
pub fn digits_from(text: &[u8], at: usize) -> Digits
    ensures { result ≡ reading.digits_from text.now at }
{
    let mut value = 0u64;
    let mut end = at;
    for &b in call::past(text, at) {
        let Some(d) = digit(b) else {
            return Digits { value, end };
        };
        value = value % 0x1000_0000_0000_0000 * 16 + d;
        end += 1;
    }
    Digits { value, end }
}

// The word that stands at a place: a space and then 1 to 16 digits.
pub fn word_from(text: &[u8], at: usize) -> Option<Digits>
    ensures { result ≡ reading.word_from text.now at }
{
    if byte(text, at) != b' ' {
        return None;
    }
    let from = at + 1;
    let d = digits_from(text, from);
    if d.end <= from {
        return None;
    }
    if from + 16 < d.end {
        return None;
    }
    Some(d)
}

// A run of words: how many there are, and where they end in the text.
// Slices: the words themselves stand in the caller's row.
#[derive(Clone, Copy, Debug)]
pub struct Run {
    pub count: usize,
    pub end: usize,
}

// Puts the words that stand in the text from `at` on into a row, as many as it holds.
pub fn words_from(text: &[u8], at: usize, row: &mut [u64]) -> Run
    ensures { reading.words_of result.count result.end row.new ≡ reading.words_from text.now at row.old }
{
    let mut i = at;
    for (k, word) in row.iter_mut().enumerate() {
        let Some(next) = word_from(text, i) else {
            return Run { count: k, end: i };
        };
        *word = next.value;
        i = next.end;
    }
    Run {
        count: row.len(),
        end: i,
    }
}

// A record that was read: how many inputs and how many answers it has, and whether its line kept to the format.
// Number: a line that breaks off has counts too, those of the words that were read, so `whole` stands beside them.
#[derive(Clone, Copy, Debug)]
pub struct Record {
    pub inputs: usize,
    pub answers: usize,
    pub whole: bool,
}

// Whether a space and then `=` stand at a place.
fn equals_at(text: &[u8], at: usize) -> bool
    ensures { result ≡ reading.equals_at text.now at }
{
    if byte(text, at) != b' ' {
        return false;
    }
    byte(text, at + 1) == b'='
}

// Reads the record on the line that begins at `at`: its inputs into one row, its answers into another.
pub fn read_record(text: &[u8], at: usize, ins: &mut [u64], outs: &mut [u64]) -> Record
    ensures { reading.rows_of result ins.new outs.new ≡ reading.record_from text.now at ins.old outs.old }
{
    let i = words_from(text, name_end(text, at), ins);
    let end = i.end;
    if !equals_at(text, end) {
        return Record {
            inputs: i.count,
            answers: 0,
            whole: false,
        };
    }
    let o = words_from(text, end + 2, outs);
    Record {
        inputs: i.count,
        answers: o.count,
        whole: byte(text, o.end) == b'\n',
    }
}

// ---- rows

// The word at a place of a row, and 0 past its end.
fn word_at(row: &[u64], at: usize) -> u64
    ensures { result ≡ slice_index row.now at }
{
    row.get(at).copied().unwrap_or(0)
}

// Puts a word into a row, where there is room, and answers the next place.
fn put(row: &mut [u64], at: usize, word: u64) -> usize
    ensures { comparing.placed result row.new ≡ comparing.put word (comparing.placed at row.old) }
{
    if at < row.len() {
        row[at] = word;
        return at + 1;
    }
    at
}

// How many words two rows share, from the first on.
pub fn agreeing(got: &[u64], wanted: &[u64]) -> usize
    ensures { result ≡ comparing.shared_front got.now wanted.now }
{
    got.iter().zip(wanted).take_while(|(g, w)| g == w).count()
}

// What comparing one record gave: the record's number in the list, from 1, where its line begins, its function if it is
// read, how many answers agree from the first on, how many there were and how many are due, and the first that is got
// and wanted after those that agree.
#[derive(Clone, Copy, Debug)]
pub struct Compared {
    pub number: u64,
    pub at: usize,
    pub function: Option<usize>,
    pub agree: usize,
    pub answers: usize,
    pub due: usize,
    pub got: u64,
    pub wanted: u64,
}

// The function's number, if the line is whole and a tally has a place for that number.
#[tactic(auto, unfolding(crate::specs::Answers::known_of))]
fn known(function: Option<usize>, whole: bool) -> Option<usize>
    ensures { result ≡ comparing.known_of function whole }
{
    function.filter(|f| whole && *f < NOT_READ)
}

// The smaller of two counts.
fn smaller(a: usize, b: usize) -> usize
    ensures { result ≡ min a b }
{
    if a < b { a } else { b }
}

// How many of the first n words of got are, from the first on, the first m of wanted.
fn agreeing_in(got: &[u64], n: usize, wanted: &[u64], m: usize) -> usize
    ensures { result ≡ comparing.shared_front (take n got.now) (take m wanted.now) }
{
    let g = smaller(n, got.len());
    let w = smaller(m, wanted.len());
    agreeing(&got[..g], &wanted[..w])
}

// Compares the first n words of got with the answers of a record, whose line begins at `at`.
#[tactic(auto, unfolding(crate::specs::Answers::compared_of, crate::specs::Answers::agree_of))]
fn compare(
    function: Option<usize>,
    at: usize,
    read: Record,
    wanted: &[u64],
    got: &[u64],
    n: usize,
) -> Compared
    ensures { result ≡ comparing.compared_of function at read wanted.now got.now n }
{
    let agree = agreeing_in(got, n, wanted, read.answers);
    Compared {
        number: 0,
        at,
        function: known(function, read.whole),
        agree,
        answers: n,
        due: read.answers,
        got: word_at(got, agree),
        wanted: word_at(wanted, agree),
    }
}

impl Compared {
    // Whether the record was read and every answer is the one wanted.
    #[tactic(auto, unfolding(crate::specs::Answers::same_of))]
    fn is_same(self) -> bool
        ensures { result ≡ comparing.same_of self }
    {
        self.function.is_some() && self.agree == self.answers && self.agree == self.due
    }

    // The place of its counts in a tally: its function's, and the last for a record that is not read.
    fn place(self) -> usize
        ensures { result ≡ comparing.place_of self }
    {
        self.function.unwrap_or(NOT_READ)
    }
}

// ---- the report

// What a run has met so far: how many records, of each function how many were compared and how many differ, how many
// that differ are kept, and those: the first eight.
#[derive(Clone, Copy, Debug)]
pub struct Tally {
    pub records: u64,
    pub compared: [u64; 32],
    pub differ: [u64; 32],
    pub kept: usize,
    pub first: [Compared; 8],
}

// One more at a place, of those that there are.
#[tactic(auto, unfolding(crate::specs::Answers::one_more_at))]
fn add_one(counts: &mut [u64; 32], at: usize)
    ensures { counts.new ≡ comparing.one_more_at counts.old at }
{
    if at < 32 {
        counts[at] = counts[at].wrapping_add(1);
    }
}

impl Tally {
    // Nothing met yet.
    #[tactic(auto, unfolding(crate::specs::Answers::nothing_met, crate::specs::Answers::no_record))]
    pub fn new() -> Tally
        ensures { result ≡ comparing.nothing_met }
    {
        let none = Compared {
            number: 0,
            at: 0,
            function: None,
            agree: 0,
            answers: 0,
            due: 0,
            got: 0,
            wanted: 0,
        };
        Tally {
            records: 0,
            compared: [0; 32],
            differ: [0; 32],
            kept: 0,
            first: [none; 8],
        }
    }

    // One more record that differs: counted for its function, and kept with its number while there are fewer than
    // eight.
    #[tactic(auto, unfolding(crate::specs::Answers::differing_of, crate::specs::Answers::numbered_of))]
    fn add_differing(&mut self, c: Compared)
        ensures { self.new ≡ comparing.differing_of self.old c }
    {
        add_one(&mut self.differ, c.place());
        if self.kept < 8 {
            self.first[self.kept] = Compared {
                number: self.records,
                ..c
            };
            self.kept += 1;
        }
    }

    // One more record compared.
    #[tactic(auto, unfolding(crate::specs::Answers::counted_of, crate::specs::Answers::agreed_of))]
    pub fn add(&mut self, c: Compared)
        ensures { self.new ≡ comparing.counted_of self.old c }
    {
        self.records = self.records.wrapping_add(1);
        add_one(&mut self.compared, c.place());
        if !c.is_same() {
            self.add_differing(c);
        }
    }
}

// An upper-case hexadecimal digit, that of the word's low four bits.
pub fn glyph(word: u64) -> u8
    ensures { result ≡ comparing.glyph_of (word % 16) }
{
    let d = word % 16;
    // By hand: From has no conversion from u64 to u8.
    if d < 10 {
        return d as u8 + b'0';
    }
    (d - 10) as u8 + b'A'
}

// The sixteen digits of a word.
pub fn hex(word: u64) -> [u8; 16]
    ensures value { result ≡ comparing.hex_of word }
    ensures len { 16 ≡ length result }
{
    let mut out = [0u8; 16];
    for (k, digit) in out.iter_mut().enumerate() {
        *digit = glyph(word >> (60 - 4 * k));
    }
    out
}

// ---- input and output: no contract can say what is read or written

fn print(rt: &impl Print, text: &[u8]) -> io::Result<()> {
    io::writer(rt).write_all(text)
}

// Prints a word: eight digits, or sixteen where it has more.
fn print_word(rt: &impl Print, word: u64) -> io::Result<()> {
    let out = hex(word);
    if word < 0x1_0000_0000 {
        print(rt, &out[8..])
    } else {
        print(rt, &out)
    }
}

// Prints an answer, if there is one.
fn print_answer(rt: &impl Print, there: bool, word: u64) -> io::Result<()> {
    if there {
        print_word(rt, word)
    } else {
        print!(rt; "none")
    }
}

// Prints what one record that differs got and wanted.
fn print_difference(rt: &impl Print, text: &[u8], c: Compared) -> io::Result<()> {
    let number = c.number;
    print!(rt; "record {number} ")?;
    print(rt, name(text, c.at))?;
    if c.function.is_none() {
        return println!(rt; " is not read");
    }
    let agree = c.agree;
    print!(rt; ": answer {agree} got ")?;
    print_answer(rt, c.agree < c.answers, c.got)?;
    print!(rt; " wanted ")?;
    print_answer(rt, c.agree < c.due, c.wanted)?;
    println!(rt)
}

// Prints the first records that differ.
fn print_differences(rt: &impl Print, text: &[u8], t: Tally) -> io::Result<()> {
    for c in t.first.iter().take(t.kept) {
        print_difference(rt, text, *c)?;
    }
    Ok(())
}

fn print_counts(rt: &impl Print, compared: u64, differ: u64) -> io::Result<()> {
    print!(rt; " {compared} compared, {differ} differ")
}

// The sum of the counts of all functions, those not read left out.
fn total(counts: [u64; 32]) -> u64
    ensures { result ≡ comparing.total_of counts }
{
    counts
        .iter()
        .take(NOT_READ)
        .fold(0, |sum: u64, n| sum.wrapping_add(*n))
}

// Prints the last line: all that were compared, that differ, and that were not read.
fn print_total(rt: &impl Print, t: Tally) -> io::Result<()> {
    let compared = t.compared;
    let differ = t.differ;
    print!(rt; "total")?;
    print_counts(rt, total(compared), total(differ))?;
    let unread = compared[NOT_READ];
    println!(rt; ", {unread} not read")
}
