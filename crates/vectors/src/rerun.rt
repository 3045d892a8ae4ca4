// A run over a list: every record's function is called on its inputs, what it answers is compared with the answers that
// the record has, and the report says what differs.
// Facts: how many inputs and answers a record has are const parameters, which no struct takes together.
ghost use Rattle.std.specs.Prelude.{◌≡◌, ◌≤◌, nat_eq};
ghost use Rattle.std.specs.List.{position};
ghost use Rattle.std.specs.Cmp.Lexicographic.{pointwise};

use super::call::{Answers, Inputs, ROOM};
use super::{Compared, Tally};
use std::io::Read;
use std::rt::Files;
use std::{fs, io};

// The number of the first function that has this name.
fn number_of(name: &[u8], functions: &[&str]) -> Option<usize>
    ensures { result ≡ position (λ f. pointwise nat_eq f.now name.now) functions.now }
{
    functions.iter().position(|f| f.as_bytes() == name)
}

// Reads the record that begins at `at`, and compares its answers with what the function that it names answers. There is
// place for `INPUTS` inputs and `ANSWERS` answers: a record with more is not read.
fn replayed<const INPUTS: usize, const ANSWERS: usize, F: Fn(&str, &mut Inputs, &mut Answers)>(
    text: &[u8],
    at: usize,
    functions: &[&str],
    answer: &F,
    answers: &mut Answers,
) -> Compared
    requires callable { F.IsAlwaysCallable answer.now }
    requires inputs { INPUTS ≤ ROOM }
    requires answers { ANSWERS ≤ ROOM }
{
    let mut row = [0u64; INPUTS];
    let mut wanted = [0u64; ANSWERS];
    let function = number_of(super::name(text, at), functions);
    let read = super::read_record(text, at, &mut row, &mut wanted);
    if let Some(name) = function.and_then(|k| functions.get(k)) {
        answer(name, &mut Inputs::new(&row), answers);
    }
    answers.count = super::smaller(answers.count, ANSWERS);
    answers.compare(function, at, read, &wanted)
}

// Core: goes through all records of a list. `compared` compares the one that begins at the place that it is given, and has
// room for answers, with none put.
pub fn compare_all<F: Fn(usize, &mut Answers) -> io::Result<Compared>>(
    text: &[u8],
    compared: F,
) -> io::Result<Tally>
    requires { F.IsAlwaysCallable compared }
{
    let mut answers = Answers::new();
    let mut t = Tally::new();
    let mut at = 0usize;
    // By index: `compared` and the report are given the place of a line.
    while at < text.len() {
        if !super::is_comment(text, at) {
            answers.count = 0;
            t.add(compared(at, &mut answers)?);
        }
        at = super::next_line(text, at);
    }
    Ok(t)
}

// Prints the line of each function: its name, how many of its records were compared and how many differ.
fn print_functions(rt: &impl Print, functions: &[&str], t: Tally) -> io::Result<()> {
    for ((name, compared), differ) in functions.iter().zip(t.compared).zip(t.differ) {
        println!(rt; "{name} {compared} compared, {differ} differ")?;
    }
    Ok(())
}

// Prints the report of a run over a list: a line for each function, the first records that differ, and the totals.
pub fn report(rt: &impl Print, text: &[u8], functions: &[&str], t: Tally) -> io::Result<()> {
    print_functions(rt, functions, t)?;
    super::print_differences(rt, text, t)?;
    super::print_total(rt, t)
}

// The bytes that a file holds, the first `limit` of them where it has more.
pub fn load<R: Files + Alloc>(rt: &R, path: &str, limit: u64) -> io::Result<Vec<u8, R::A>> {
    let mut bytes = Vec::new(rt.alloc());
    fs::open(rt, path)?.take(limit).read_to_end(&mut bytes)?;
    Ok(bytes)
}

// Core: replays the list that a file holds, of which it reads `limit` bytes. A record has up to `INPUTS` inputs and
// `ANSWERS` answers, and one with more is not read. Its function is one of `functions`, by its name, and `answer` calls
// the function that it is given the name of: it takes the inputs and puts the answers. What differs is printed, and the
// totals.
pub fn replay<
    const INPUTS: usize,
    const ANSWERS: usize,
    R: Files + Alloc + Print,
    F: Fn(&str, &mut Inputs, &mut Answers),
>(rt: &R, path: &str, limit: u64, functions: &[&str], answer: F) -> io::Result<()>
    requires callable { F.IsAlwaysCallable answer }
    requires inputs { INPUTS ≤ ROOM }
    requires answers { ANSWERS ≤ ROOM }
{
    let text = load(rt, path, limit)?;
    let compared = |at: usize, answers: &mut Answers| -> io::Result<Compared>
        requires callable { F.IsAlwaysCallable answer }
        requires inputs { INPUTS ≤ ROOM }
        requires answers { ANSWERS ≤ ROOM }
    { Ok(replayed::<INPUTS, ANSWERS, F>(&text, at, functions, &answer, answers)) };
    let t = compare_all(&text, compared)?;
    report(rt, &text, functions, t)
}
