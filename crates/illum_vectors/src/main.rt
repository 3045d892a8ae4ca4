// Replays the stored answers of the crates `illum` and `fit`: each call's number, model or colours, and the scratch that it leaves
// behind, every bit; and those of two cores, the basis and the channels' inverses.
//
// A record of `fit` has a count of references beside their floats; `fit::fit_flat` takes the count from the floats. So it is lent
// eight floats for each, which in all records but five are all that stand there. In one of the five, 9 references in 64 floats,
// they are not there: it is lent a part whose last reference is not whole, which sentence 5 refuses as well. In two the count
// is above 16,384, and `fit::fit_counted` is called with it.
#![tactic(auto)]

use answers::Refusal;
use illum::{IlluminationModel, Spot};
use std::io;
use vectors::{Answers, Inputs};

// 0 and the model, or the refusal's number.
fn put_modelled(answers: &mut Answers, modelled: Result<IlluminationModel, Refusal>) {
    stage_words::put_result(answers, modelled, |answers, model| {
        stage_words::put_model(answers, &model);
    });
}

// correct MODEL count (x y r g b).. = (no r g b mark mark mark)..
fn correct(inputs: &mut Inputs, answers: &mut Answers) {
    let model = stage_words::take_model(inputs);
    for _ in 0..inputs.take::<usize>() {
        let x = inputs.take();
        let y = inputs.take();
        let corrected = illum::correct(model, x, y, stage_words::take_linear(inputs));
        stage_words::put_result(answers, corrected, |answers, m| {
            stage_words::put_linear(answers, m.colour);
            answers.put_all(&[m.held_r, m.held_g, m.held_b]);
        });
    }
}

// The call that a record's floats and count make, with room for the marks of up to 256 references.
// Slices: what the record lends, as the call takes it.
fn fitted(
    flat: &[f32],
    n: usize,
    side: usize,
    version: u8,
    scratch: &mut [f32],
) -> Result<IlluminationModel, Refusal> {
    let mut kept = [0u8; 256];
    if 16384 < n {
        return fit::fit_counted(flat, n, side, version, &mut kept, scratch);
    }
    let flat = stage_words::lent(flat, n);
    fit::fit_flat(flat, side, version, &mut kept, scratch)
}

// fit |flat| n side version len fill = no MODEL zeros
fn fit(inputs: &mut Inputs, answers: &mut Answers) {
    let (mut flat, mut scratch) = ([0.0f32; 2048], [0.0f32; 1024]);
    let flat_len = inputs.load(&mut flat);
    let flat = &flat[..flat_len];
    let n = inputs.take();
    let side = inputs.take();
    let version = inputs.take();
    let len = inputs.take();
    let fill = inputs.take();
    let (scratch, _) = vectors::spread(&mut scratch, len, fill);
    put_modelled(answers, fitted(flat, n, side, version, scratch));
    stage_words::put_scratch(answers, scratch, fill);
}

// basis terms side x y = values
fn basis(inputs: &mut Inputs, answers: &mut Answers) {
    let terms = inputs.take();
    let values = illum::basis(terms, inputs.take(), inputs.take(), inputs.take());
    for &value in values.iter().take(terms) {
        answers.put(value);
    }
}

// deshade MODEL x y r g b = d d d
fn deshade(inputs: &mut Inputs, answers: &mut Answers) {
    let model = stage_words::take_model(inputs);
    let x = inputs.take();
    let y = inputs.take();
    let colour = stage_words::take_linear(inputs);
    let d = illum::unshade(model, Spot { x, y, colour });
    answers.put_all(&[d.r.value, d.g.value, d.b.value]);
}

// Calls the function of this name.
fn answer(name: &str, inputs: &mut Inputs, answers: &mut Answers) {
    match name {
        "identity" => put_modelled(answers, illum::identity(inputs.take())),
        "correct" => correct(inputs, answers),
        "fit" => fit(inputs, answers),
        "basis" => basis(inputs, answers),
        "deshade" => deshade(inputs, answers),
        _ => {}
    }
}

// Twin: each program's main names its own list and its own functions.
fn main(rt: HostRuntime) -> io::Result<()> {
    let functions = ["identity", "correct", "fit", "basis", "deshade"];
    vectors::replay::<2048, 256, _, _>(&rt, "illum.txt", 262144, &functions, answer)
}
