// Replays the stored answers of the crate `page`: the answer of each call, and the slice that it leaves behind, every byte.
#![tactic(auto)]

use answers::outcome_number;
use std::io;
use vectors::{Answers, Inputs};

// page side terms kept rejected held |xs| |ys| grid |luma| lent fill = no |page|'
fn page(inputs: &mut Inputs, answers: &mut Answers) {
    let (mut xs, mut ys) = ([0i32; 64], [0i32; 64]);
    let (mut luma, mut out) = ([0.0f32; 64], [0u8; 2304]);
    let side = inputs.take();
    let terms = inputs.take();
    let kept = inputs.take();
    let rejected = inputs.take();
    let held = inputs.take();
    let xs_len = inputs.load(&mut xs);
    let xs = &xs[..xs_len];
    let ys_len = inputs.load(&mut ys);
    let ys = &ys[..ys_len];
    let grid = inputs.take();
    let luma_len = inputs.load(&mut luma);
    let luma = &luma[..luma_len];
    let lent = inputs.take();
    let (out, _) = vectors::spread(&mut out, lent, inputs.take());
    let paged = page::page(side, terms, kept, rejected, held, xs, ys, grid, luma, out);
    answers.put(outcome_number(paged));
    answers.put_list(out);
}

// Twin: each program's main names its own list and its own functions.
fn main(rt: HostRuntime) -> io::Result<()> {
    let answer = |_: &str, inputs: &mut Inputs, answers: &mut Answers| page(inputs, answers);
    vectors::replay::<256, 2560, _, _>(&rt, "page.txt", 262144, &["page"], answer)
}
