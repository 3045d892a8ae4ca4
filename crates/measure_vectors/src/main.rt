// Replays the stored answers of the crate `measure`: the number or the noise record of each call, and the scratch that it leaves
// behind, every bit.
//
// A record has a count of references beside their floats; `measure::measure_flat` takes the count from the floats. So it is lent
// eight floats for each, which in all records but five are all that stand there. In one of the five, 9 references in 64 floats,
// they are not there: it is lent a part whose last reference is not whole, which sentence 5 refuses as well. In one the count
// is above 16,384, and `measure::measure_counted` is called with it.
#![tactic(auto)]

use answers::Refusal;
use illum::IlluminationModel;
use measure::Measurement;
use std::io;
use vectors::{Answers, Inputs};

// The call that a record's floats and count make.
// Slices: what the record lends, as the call takes it.
fn measured(
    flat: &[f32],
    n: usize,
    side: usize,
    model: IlluminationModel,
    palette: &[f32],
    hues: usize,
    scratch: &mut [f32],
) -> Result<Measurement, Refusal> {
    if 16384 < n {
        return measure::measure_counted(flat, n, side, model, palette, hues, scratch);
    }
    let flat = stage_words::lent(flat, n);
    measure::measure_flat(flat, side, model, palette, hues, scratch)
}

// measure |flat| n side MODEL |palette| hues len fill = no STATS held zeros
fn measure(inputs: &mut Inputs, answers: &mut Answers) {
    let (mut flat, mut palette, mut scratch) = ([0.0f32; 512], [0.0f32; 256], [0.0f32; 256]);
    let flat_len = inputs.load(&mut flat);
    let flat = &flat[..flat_len];
    let n = inputs.take();
    let side = inputs.take();
    let model = stage_words::take_model(inputs);
    let palette_len = inputs.load(&mut palette);
    let palette = &palette[..palette_len];
    let hues = inputs.take();
    let len = inputs.take();
    let fill = inputs.take();
    let (scratch, _) = vectors::spread(&mut scratch, len, fill);
    let outcome = measured(flat, n, side, model, palette, hues, scratch);
    stage_words::put_result(answers, outcome, |answers, m| {
        stage_words::put_noise(answers, m.noise);
        answers.put(m.held);
    });
    stage_words::put_scratch(answers, scratch, fill);
}

// Twin: each program's main names its own list and its own functions.
fn main(rt: HostRuntime) -> io::Result<()> {
    let answer = |_: &str, inputs: &mut Inputs, answers: &mut Answers| measure(inputs, answers);
    vectors::replay::<512, 64, _, _>(&rt, "measure.txt", 262144, &["measure"], answer)
}
