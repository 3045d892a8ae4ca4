// Replays the stored answers of the crate `totals`: cards and batches added, and means, refused calls too.
#![tactic(auto)]

use stage_words::put_result;
use std::io;
use totals::{Ratio, Totals};
use vectors::{Answers, Inputs};

// Takes TOTALS: cards modules undecided under sum.
fn take_totals(inputs: &mut Inputs) -> Totals {
    Totals {
        cards: inputs.take(),
        modules: inputs.take(),
        undecided: inputs.take(),
        under: inputs.take(),
        sum: inputs.take(),
    }
}

// Puts TOTALS.
fn put_totals(answers: &mut Answers, t: Totals) {
    answers.put_all(&[t.cards, t.modules, t.undecided, t.under, t.sum]);
}

// Puts a fraction.
fn put_ratio(answers: &mut Answers, q: Ratio) {
    answers.put_all(&[q.numerator, q.denominator]);
}

// add_card TOTALS |luma| = no TOTALS
fn add_card(inputs: &mut Inputs, answers: &mut Answers) {
    let mut luma = [0.0; 64];
    let before = take_totals(inputs);
    let luma_len = inputs.load(&mut luma);
    let luma = &luma[..luma_len];
    let after = totals::add_card(before, luma);
    put_result(answers, after, put_totals);
}

// Calls the function of this name.
//
// add_totals TOTALS TOTALS = no TOTALS
// mean TOTALS = no numerator denominator
fn answer(name: &str, inputs: &mut Inputs, answers: &mut Answers) {
    match name {
        "add_card" => add_card(inputs, answers),
        "add_totals" => {
            let sum = totals::add_totals(take_totals(inputs), take_totals(inputs));
            put_result(answers, sum, put_totals)
        }
        "mean" => put_result(answers, totals::mean(take_totals(inputs)), put_ratio),
        _ => {}
    }
}

fn main(rt: HostRuntime) -> io::Result<()> {
    vectors::replay::<80, 8, _, _>(
        &rt,
        "totals.txt",
        163840,
        &["add_card", "add_totals", "mean"],
        answer,
    )
}
