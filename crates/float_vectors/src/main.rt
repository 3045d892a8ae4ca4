// Replays the stored answers of the crate `float`: each function's answer, every bit.
#![tactic(auto)]

use std::io;
use vectors::{Answers, Inputs};

// Calls the function of this name.
fn answer(name: &str, inputs: &mut Inputs, answers: &mut Answers) {
    match name {
        "sqrt" => answers.put(float::sqrt(inputs.take())),
        "cbrt" => answers.put(float::cbrt(inputs.take())),
        "narrow" => answers.put(float::narrow(inputs.take())),
        "widen" => answers.put(float::widen(inputs.take())),
        "abs" => answers.put(float::abs(inputs.take())),
        "abs_f64" => answers.put(float::abs_f64(inputs.take())),
        "max" => answers.put(float::max(inputs.take(), inputs.take())),
        "min" => answers.put(float::min(inputs.take(), inputs.take())),
        "clamp" => answers.put(float::clamp(inputs.take(), inputs.take(), inputs.take())),
        _ => {}
    }
}

fn main(rt: HostRuntime) -> io::Result<()> {
    let functions = [
        "sqrt", "cbrt", "narrow", "widen", "abs", "abs_f64", "max", "min", "clamp",
    ];
    vectors::replay::<16, 16, _, _>(&rt, "float.txt", 262144, &functions, answer)
}
