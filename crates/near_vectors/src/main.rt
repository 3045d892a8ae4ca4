// Replays the stored answers of the crate `near`, and which references `fit::fit_flat` kept: each call's number and count, and the
// whole of what it was lent.
#![tactic(auto)]

use near::Query;
use std::io;
use vectors::{Answers, Inputs};

// kept |flat| side version len fill = no rejected kept |marks|'
fn kept(inputs: &mut Inputs, answers: &mut Answers) {
    let (mut flat, mut marks, mut scratch) = ([0.0f32; 512], [0u8; 64], [0.0f32; 256]);
    let flat_len = inputs.load(&mut flat);
    let flat = &flat[..flat_len];
    let side = inputs.take();
    let version = inputs.take();
    let len = inputs.take();
    let (marks, _) = vectors::spread(&mut marks, len, inputs.take());
    let fitted = fit::fit_flat(flat, side, version, marks, &mut scratch);
    stage_words::put_result(answers, fitted, |answers, model| {
        answers.put(model.rejected);
        answers.put(model.kept);
    });
    answers.put_list(marks);
}

// nearest |xy| |kept| side x y len fill = no count |out|', and within and cut_off with what they ask after y, which `query` takes
fn near<F: FnOnce(&mut Inputs) -> Query>(inputs: &mut Inputs, query: F, answers: &mut Answers)
    requires { F.IsAlwaysCallable query }
{
    let (mut xy, mut kept, mut room) = ([0.0f32; 128], [0u8; 64], [0u32; 64]);
    let xy_len = inputs.load(&mut xy);
    let xy = &xy[..xy_len];
    let kept_len = inputs.load(&mut kept);
    let kept = &kept[..kept_len];
    let side = inputs.take();
    let x = inputs.take();
    let y = inputs.take();
    let asked = query(inputs);
    let len = inputs.take();
    let (room, _) = vectors::spread(&mut room, len, inputs.take());
    let found = near::near(xy, kept, side, x, y, asked, room);
    stage_words::put_result(answers, found, |answers, count| answers.put(count));
    answers.put_list(room);
}

// Calls the function of this name.
fn answer(name: &str, inputs: &mut Inputs, answers: &mut Answers) {
    match name {
        "kept" => kept(inputs, answers),
        "nearest" => near(inputs, |_| Query::Nearest, answers),
        "within" => near(inputs, |inputs| Query::Within(inputs.take()), answers),
        "cut_off" => near(inputs, |inputs| Query::CutOff(inputs.take()), answers),
        _ => {}
    }
}

fn main(rt: HostRuntime) -> io::Result<()> {
    let functions = ["kept", "nearest", "within", "cut_off"];
    vectors::replay::<512, 128, _, _>(&rt, "near.txt", 262144, &functions, answer)
}
