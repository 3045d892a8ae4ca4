// Replays the stored answers of the crate `demod`: the answer of each call, and the three slices that it leaves behind,
// every bit.
#![tactic(auto)]

use stage_words::{Card, CardRoom, front};
use std::io;
use vectors::{Answers, Inputs};

// How much of a list a call is lent.
const LENT: usize = 64;

// score side hues size |xs| |ys| grid |raw| |cxs| |cys| |cell_raw| |palette| MODEL STATS luma colours chroma fill
//     = no modules cells |luma|' |colours|' |chroma|'
fn score(inputs: &mut Inputs, answers: &mut Answers) {
    let mut room = CardRoom::new();
    let (mut luma, mut colours, mut chroma) = ([0.0f32; 64], [0.0f32; 64], [0.0f32; 64]);
    let side = inputs.take();
    let hues = inputs.take();
    let size = inputs.take();
    let Card {
        layout,
        xs,
        ys,
        raw,
        cxs,
        cys,
        cell_raw,
        palette,
        model,
        noise,
    } = stage_words::take_card(inputs, side, hues, size, &mut room);
    let mut lens = [0usize; 3];
    inputs.take_all(&mut lens);
    let fill = inputs.take();
    let (luma, _) = vectors::spread(&mut luma, lens[0], fill);
    let (colours, _) = vectors::spread(&mut colours, lens[1], fill);
    let (chroma, _) = vectors::spread(&mut chroma, lens[2], fill);
    let scored = demod::score(
        layout,
        front(xs, LENT),
        front(ys, LENT),
        front(raw, LENT),
        front(cxs, LENT),
        front(cys, LENT),
        front(cell_raw, LENT),
        palette,
        model,
        noise,
        luma,
        colours,
        chroma,
    );
    stage_words::put_result(answers, scored, |answers, report| {
        answers.put(report.held_modules);
        answers.put(report.held_cells);
    });
    answers.put_list(luma);
    answers.put_list(colours);
    answers.put_list(chroma);
}

// Twin: each program's main names its own list and its own functions.
fn main(rt: HostRuntime) -> io::Result<()> {
    let answer = |_: &str, inputs: &mut Inputs, answers: &mut Answers| score(inputs, answers);
    vectors::replay::<512, 256, _, _>(&rt, "demod.txt", 262144, &["score"], answer)
}
