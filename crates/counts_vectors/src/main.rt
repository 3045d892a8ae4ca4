// Replays the stored answers of the crate `counts`: how palettes divide the colours, refused calls too.
#![tactic(auto)]

use answers::outcome_number;
use std::io;
use vectors::{Answers, Inputs};

// colour_counts STATS PALETTE hues length = no |out|', each count 7 before the call. Where there is no room for so many, no
// call is made, and nothing is answered.
fn colour_counts(inputs: &mut Inputs, answers: &mut Answers) {
    let (mut palette, mut out) = ([0.0; 256], [0u32; 64]);
    let noise = stage_words::take_noise(inputs);
    let palette_len = inputs.load(&mut palette);
    let palette = &palette[..palette_len];
    let hues = inputs.take();
    let length = inputs.take();
    if out.len() < length {
        return;
    }
    let (out, _) = vectors::spread(&mut out, length, 7);
    let outcome = counts::colour_counts(noise, palette, hues, out);
    answers.put(outcome_number(outcome));
    answers.put_list(out);
}

// Twin: each program's `main` names its list and its functions.
fn main(rt: HostRuntime) -> io::Result<()> {
    let answer = |_: &str, inputs: &mut Inputs, answers: &mut Answers| colour_counts(
        inputs, answers,
    );
    vectors::replay::<256, 64, _, _>(&rt, "counts.txt", 65536, &["colour_counts"], answer)
}
