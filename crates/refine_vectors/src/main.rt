// Replays the stored answers of the crate `refine`: the answer of each call, and every slice that it leaves behind,
// every bit.
#![tactic(auto)]

use answers::outcome_number;
use std::io;
use vectors::{Answers, Inputs};

// refine side hues |xs| |ys| grid |colours| |palette| STATS |luma| len fill = no |luma|' zeros
fn refine(inputs: &mut Inputs, answers: &mut Answers) {
    let (mut xs, mut ys) = ([0i32; 128], [0i32; 128]);
    let (mut colours, mut palette) = ([0.0f32; 256], [0.0f32; 256]);
    let (mut luma, mut scratch) = ([0.0f32; 128], [0.0f32; 1024]);
    let side = inputs.take();
    let hues = inputs.take();
    let xs_len = inputs.load(&mut xs);
    let xs = &xs[..xs_len];
    let ys_len = inputs.load(&mut ys);
    let ys = &ys[..ys_len];
    let grid = inputs.take();
    let colours_len = inputs.load(&mut colours);
    let colours = &colours[..colours_len];
    let palette_len = inputs.load(&mut palette);
    let palette = &palette[..palette_len];
    let noise = stage_words::take_noise(inputs);
    let luma_len = inputs.load(&mut luma);
    let luma = &mut luma[..luma_len];
    let len = inputs.take();
    let fill = inputs.take();
    let (scratch, _) = vectors::spread(&mut scratch, len, fill);
    let outcome = refine::add_local_luma(
        luma, side, hues, xs, ys, grid, colours, palette, noise, scratch,
    );
    answers.put(outcome_number(outcome));
    answers.put_list(luma);
    stage_words::put_scratch(answers, scratch, fill);
}

// Twin: each program's main names its own list and its own functions.
fn main(rt: HostRuntime) -> io::Result<()> {
    let answer = |_: &str, inputs: &mut Inputs, answers: &mut Answers| refine(inputs, answers);
    vectors::replay::<1024, 256, _, _>(&rt, "refine.txt", 131072, &["refine"], answer)
}
