// Replays stored answers of `fit` and `measure` through the crate `records`: up to 64 references as records of an array, the
// first of which are lent as a slice. Each call's number, model or noise record, and the scratch that it leaves behind, every bit.
//
// `fit_first` and `measure_first` take the array by value, and lend the first of its records.
#![tactic(auto)]

ghost use Rattle.std.specs.Prelude.{◌≡◌, ◌≤◌, take};
ghost use Rattle.fit.specs.Fit as fitting;
ghost use Rattle.measure.specs.Measure as measuring;
ghost use Rattle.answers.specs.Answers.{said};
ghost use Rattle.illum.specs.Refusals.{model_said};
ghost use Rattle.records.specs.Records.{flattened};

use answers::Refusal;
use illum::IlluminationModel;
use measure::Measurement;
use records::Reference;
use std::io;
use vectors::{Answers, Inputs};

// ---- the calls

// `records::fit` of the first n references.
fn fit_first(
    rs: [Reference; 64],
    n: usize,
    side: usize,
    version: u8,
    kept: &mut [u8],
    scratch: &mut [f32],
) -> Result<IlluminationModel, Refusal>
    requires { n ≤ 64 }
    ensures { fitting.final (model_said result) kept.new scratch.new ≡ fitting.fit_of (fitting.flat_request (flattened (take n rs)) side version kept.old scratch.old) }
{
    records::fit(&rs[..n], side, version, kept, scratch)
}

// `records::measure` of the first n references.
// Slices: what the record lends, as the call takes it.
fn measure_first(
    rs: [Reference; 64],
    n: usize,
    side: usize,
    model: IlluminationModel,
    palette: &[f32],
    hues: usize,
    scratch: &mut [f32],
) -> Result<Measurement, Refusal>
    requires { n ≤ 64 }
    ensures { measuring.final (said result) scratch.new ≡ measuring.measure_of (measuring.flat_request (flattened (take n rs)) side model palette.now hues scratch.old) }
{
    records::measure(&rs[..n], side, model, palette, hues, scratch)
}

// ---- the records

// Takes a reference.
fn take_reference(inputs: &mut Inputs) -> Reference {
    Reference {
        x: inputs.take(),
        y: inputs.take(),
        observed: stage_words::take_linear(inputs),
        nominal: stage_words::take_linear(inputs),
    }
}

// Takes a list of references: how many floats they have, and the eight of each. All 64 have words, those past the list's
// end the words behind it, and zeros past the record. What is taken is the whole list, also where its floats are more than
// 64 references have or the last reference is not whole.
fn take_references(inputs: &mut Inputs) -> [Reference; 64] {
    let mut listed = *inputs;
    inputs.load::<f32>(&mut []);
    let _floats: usize = listed.take();
    let mut rs = [take_reference(&mut Inputs::new(&[])); 64];
    for r in rs.iter_mut() {
        *r = take_reference(&mut listed);
    }
    rs
}

// Takes how many of 64 references to lend: all where it says more.
fn take_count(inputs: &mut Inputs) -> usize
    ensures { result ≤ 64 }
{
    let n: usize = inputs.take();
    n.min(64)
}

// fit |flat| n side version len fill = no MODEL zeros
fn fit(inputs: &mut Inputs, answers: &mut Answers) {
    let (mut kept, mut scratch) = ([0u8; 64], [0.0f32; 512]);
    let rs = take_references(inputs);
    let n = take_count(inputs);
    let side = inputs.take();
    let version = inputs.take();
    let len = inputs.take();
    let fill = inputs.take();
    let (scratch, _) = vectors::spread(&mut scratch, len, fill);
    let fitted = fit_first(rs, n, side, version, &mut kept, scratch);
    stage_words::put_result(answers, fitted, |answers, model| {
        stage_words::put_model(answers, &model);
    });
    stage_words::put_scratch(answers, scratch, fill);
}

// measure |flat| n side MODEL |palette| hues len fill = no STATS held zeros
fn measure(inputs: &mut Inputs, answers: &mut Answers) {
    let (mut palette, mut scratch) = ([0.0f32; 256], [0.0f32; 512]);
    let rs = take_references(inputs);
    let n = take_count(inputs);
    let side = inputs.take();
    let model = stage_words::take_model(inputs);
    let palette_len = inputs.load(&mut palette);
    let palette = &palette[..palette_len];
    let hues = inputs.take();
    let len = inputs.take();
    let fill = inputs.take();
    let (scratch, _) = vectors::spread(&mut scratch, len, fill);
    let measured = measure_first(rs, n, side, model, palette, hues, scratch);
    stage_words::put_result(answers, measured, |answers, m| {
        stage_words::put_noise(answers, m.noise);
        answers.put(m.held);
    });
    stage_words::put_scratch(answers, scratch, fill);
}

// Calls the function of this name.
fn answer(name: &str, inputs: &mut Inputs, answers: &mut Answers) {
    match name {
        "fit" => fit(inputs, answers),
        "measure" => measure(inputs, answers),
        _ => {}
    }
}

fn main(rt: HostRuntime) -> io::Result<()> {
    vectors::replay::<1024, 128, _, _>(&rt, "records.txt", 262144, &["fit", "measure"], answer)
}
