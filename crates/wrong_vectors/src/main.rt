// A list with wrong answers and wrong lent memory, and a call that leaves lent memory wrong, over the same reader, the same words of
// a slice and the same words of a scratch as every replay: the expected output is the report of them.
#![tactic(auto)]

use std::io;
use vectors::{Answers, Inputs};

// median |v| = r |v|'
fn median(inputs: &mut Inputs, answers: &mut Answers) {
    let mut room = [0.0f32; 8];
    let room_len = inputs.load(&mut room);
    let values = &mut room[..room_len];
    answers.put(order::median(values));
    answers.put_list(values);
}

// Where a call is to be wrong, writes over the last element of a slice.
fn overwrite(wrong: bool, scratch: &mut [f32]) {
    if let Some(last) = scratch.last_mut()
        && wrong
    {
        *last = 2.0;
    }
}

// mad_sigma |v| len fill = r zeros, on a scratch, each of whose elements is the filling; where the call is to be wrong, the
// last of them is written over afterwards. r is 0 where the call was refused.
fn mad_sigma(inputs: &mut Inputs, wrong: bool, answers: &mut Answers) {
    let (mut values, mut scratch) = ([0.0f32; 8], [0.0f32; 16]);
    let values_len = inputs.load(&mut values);
    let values = &values[..values_len];
    let len = inputs.take();
    let fill = inputs.take();
    let (scratch, _) = vectors::spread(&mut scratch, len, fill);
    let sigma = order::mad_sigma(values, scratch);
    overwrite(wrong, scratch);
    answers.put(sigma.unwrap_or(0.0));
    stage_words::put_scratch(answers, scratch, fill);
}

// Calls the function of this name.
fn answer(name: &str, inputs: &mut Inputs, answers: &mut Answers) {
    match name {
        "sqrt" => answers.put(float::sqrt(inputs.take())),
        "cbrt" => answers.put(float::cbrt(inputs.take())),
        "median" => median(inputs, answers),
        "mad_sigma" => mad_sigma(inputs, false, answers),
        "overwritten" => mad_sigma(inputs, true, answers),
        _ => {}
    }
}

// Twin: each program's `main` names its list and its functions.
fn main(rt: HostRuntime) -> io::Result<()> {
    let functions = ["sqrt", "cbrt", "median", "mad_sigma", "overwritten"];
    vectors::replay::<16, 16, _, _>(&rt, "wrong.txt", 4096, &functions, answer)
}
