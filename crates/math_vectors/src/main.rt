// Replays the stored answers of the crates `math` and `order`: the answer of each call, and every slice that it leaves
// behind, every bit.
#![tactic(auto)]

use answers::Refusal;
use std::io;
use vectors::{Answers, Inputs, Value};

// An answer as a list has it: 0 solved, FFFF no solution, else the refusal's number.
// Number: the list stores one word for the three outcomes.
fn number(solving: Result<bool, Refusal>) -> u32 {
    match solving {
        Ok(true) => 0,
        Ok(false) => 0xFFFF,
        Err(refusal) => u32::from(refusal),
    }
}

// solve n |a| |b| |x| = out |a|' |b|' |x|'
fn solve(inputs: &mut Inputs, answers: &mut Answers) {
    let (mut a, mut b, mut x) = ([0.0; 400], [0.0; 24], [0.0; 24]);
    let n = inputs.take();
    let a_len = inputs.load(&mut a);
    let a = &mut a[..a_len];
    let b_len = inputs.load(&mut b);
    let b = &mut b[..b_len];
    let x_len = inputs.load(&mut x);
    let x = &mut x[..x_len];
    answers.put(number(math::solve(a, b, x, n)));
    answers.put_list(a);
    answers.put_list(b);
    answers.put_list(x);
}

// least_squares terms |rows| |targets| |x| = out |x|'
fn least_squares(inputs: &mut Inputs, answers: &mut Answers) {
    let (mut rows, mut targets, mut x) = ([0.0; 400], [0.0; 64], [0.0; 24]);
    let terms = inputs.take();
    let rows_len = inputs.load(&mut rows);
    let rows = &rows[..rows_len];
    let targets_len = inputs.load(&mut targets);
    let targets = &targets[..targets_len];
    let x_len = inputs.load(&mut x);
    let x = &mut x[..x_len];
    answers.put(number(math::least_squares(rows, targets, terms, x)));
    answers.put_list(x);
}

// Puts the first m elements of a matrix as a list, which is all that a record has of it, and one word more where one of the
// others is not zero.
fn put_matrix(answers: &mut Answers, matrix: &[f64; 324], m: usize) {
    let (front, rest) = matrix.split_at(m.min(324));
    answers.put_list(front);
    if rest.iter().any(|x| x.word() != 0) {
        answers.put(1u32);
    }
}

// add_row terms |m| |rhs| |row| target = no |m|' |rhs|'
fn add_row(inputs: &mut Inputs, answers: &mut Answers) {
    let (mut matrix, mut side, mut values) = ([0.0; 324], [0.0; 24], [0.0; 24]);
    let terms = inputs.take();
    let m = inputs.load(&mut matrix);
    let side_len = inputs.load(&mut side);
    let side = &mut side[..side_len];
    let values_len = inputs.load(&mut values);
    let values = &values[..values_len];
    let outcome = math::add_row(&mut matrix, side, values, inputs.take(), terms);
    answers.put(answers::outcome_number(outcome));
    put_matrix(answers, &matrix, m);
    answers.put_list(side);
}

// finish terms |m| |rhs| |x| = out |m|' |rhs|' |x|'
fn finish(inputs: &mut Inputs, answers: &mut Answers) {
    let (mut matrix, mut side, mut x) = ([0.0; 324], [0.0; 24], [0.0; 24]);
    let terms = inputs.take();
    let m = inputs.load(&mut matrix);
    let side_len = inputs.load(&mut side);
    let side = &mut side[..side_len];
    let x_len = inputs.load(&mut x);
    let x = &mut x[..x_len];
    answers.put(number(math::finish(&mut matrix, side, x, terms)));
    put_matrix(answers, &matrix, m);
    answers.put_list(side);
    answers.put_list(x);
}

// median |v| = r |v|'
fn median(inputs: &mut Inputs, answers: &mut Answers) {
    let mut values = [0.0; 128];
    let values_len = inputs.load(&mut values);
    let values = &mut values[..values_len];
    answers.put(order::median(values));
    answers.put_list(values);
}

// mad_sigma |v| |scratch| = no r |scratch|'
fn mad_sigma(inputs: &mut Inputs, answers: &mut Answers) {
    let (mut values, mut scratch) = ([0.0; 128], [0.0; 256]);
    let values_len = inputs.load(&mut values);
    let values = &values[..values_len];
    let scratch_len = inputs.load(&mut scratch);
    let scratch = &mut scratch[..scratch_len];
    let sigma = order::mad_sigma(values, scratch);
    stage_words::put_result(answers, sigma, Answers::put);
    answers.put_list(scratch);
}

// Calls the function of this name.
fn answer(name: &str, inputs: &mut Inputs, answers: &mut Answers) {
    match name {
        "solve" => solve(inputs, answers),
        "least_squares" => least_squares(inputs, answers),
        "add_row" => add_row(inputs, answers),
        "finish" => finish(inputs, answers),
        "median" => median(inputs, answers),
        "mad_sigma" => mad_sigma(inputs, answers),
        _ => {}
    }
}

fn main(rt: HostRuntime) -> io::Result<()> {
    let functions = [
        "solve",
        "least_squares",
        "add_row",
        "finish",
        "median",
        "mad_sigma",
    ];
    vectors::replay::<1024, 1024, _, _>(&rt, "math.txt", 262144, &functions, answer)
}
