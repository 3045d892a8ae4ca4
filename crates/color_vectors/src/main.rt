// Replays the stored answers of the crate `color`: each component of each answer, every bit.
#![tactic(auto)]

use color::{Lab, Linear, Srgb8, Xyz};
use std::io;
use vectors::{Answers, Inputs};

// ---- inputs and answers: the components of a colour
//
// Twin: each takes or puts the fields of another type, by their names.

fn take_srgb8(inputs: &mut Inputs) -> Srgb8 {
    Srgb8 {
        r: inputs.take(),
        g: inputs.take(),
        b: inputs.take(),
    }
}

fn take_xyz(inputs: &mut Inputs) -> Xyz {
    Xyz {
        x: inputs.take(),
        y: inputs.take(),
        z: inputs.take(),
    }
}

fn put_srgb8(answers: &mut Answers, c: Srgb8) {
    answers.put_all(&[c.r, c.g, c.b]);
}

fn put_xyz(answers: &mut Answers, c: Xyz) {
    answers.put_all(&[c.x, c.y, c.z]);
}

fn put_lab(answers: &mut Answers, c: Lab) {
    answers.put_all(&[c.l, c.a, c.b]);
}

// ---- the functions

// Calls the function of this name, of a colour in bytes or of the palette's places.
fn of_bytes(name: &str, inputs: &mut Inputs, answers: &mut Answers) {
    match name {
        "srgb_to_linear" => answers.put(color::srgb_to_linear(inputs.take())),
        "srgb8_to_linear" => {
            stage_words::put_linear(answers, color::srgb8_to_linear(take_srgb8(inputs)))
        }
        "srgb8_to_lab" => put_lab(answers, color::srgb8_to_lab(take_srgb8(inputs))),
        "rec709_luma" => answers.put(take_srgb8(inputs).rec709_luma()),
        "to_hex" => answers.put(take_srgb8(inputs).to_hex()),
        "from_hex" => put_srgb8(answers, Srgb8::from_hex(inputs.take())),
        "index" => {
            let index = color::palette::index(inputs.take(), inputs.take(), inputs.take());
            stage_words::put_result(answers, index, Answers::put)
        }
        "palette_len" => {
            let len = color::palette::len(inputs.take());
            stage_words::put_result(answers, len, Answers::put)
        }
        "palette_is_empty" => {
            let empty = color::palette::is_empty(inputs.take());
            stage_words::put_result(answers, empty, Answers::put)
        }
        _ => {}
    }
}

// Calls the function of this name: those of a colour in floats are here, and else `of_bytes` has it.
fn answer(name: &str, inputs: &mut Inputs, answers: &mut Answers) {
    match name {
        "linear_to_xyz" => put_xyz(
            answers,
            color::linear_to_xyz(stage_words::take_linear(inputs)),
        ),
        "xyz_to_linear" => stage_words::put_linear(answers, color::xyz_to_linear(take_xyz(inputs))),
        "xyz_to_lab" => put_lab(answers, color::xyz_to_lab(take_xyz(inputs))),
        "lab_to_xyz" => put_xyz(answers, color::lab_to_xyz(stage_words::take_lab(inputs))),
        "linear_to_lab" => put_lab(
            answers,
            color::linear_to_lab(stage_words::take_linear(inputs)),
        ),
        "lab_to_linear" => {
            stage_words::put_linear(answers, color::lab_to_linear(stage_words::take_lab(inputs)))
        }
        "luminance" => answers.put(stage_words::take_linear(inputs).luminance()),
        "chroma" => answers.put(stage_words::take_lab(inputs).chroma()),
        "ab_distance" => {
            let (from, to) = (stage_words::take_lab(inputs), stage_words::take_lab(inputs));
            answers.put(from.ab_distance(to))
        }
        "clamped" => stage_words::put_linear(answers, stage_words::take_linear(inputs).clamped()),
        "in_gamut" => answers.put(stage_words::take_linear(inputs).in_gamut()),
        _ => of_bytes(name, inputs, answers),
    }
}

fn main(rt: HostRuntime) -> io::Result<()> {
    let functions = [
        "srgb_to_linear",
        "srgb8_to_linear",
        "srgb8_to_lab",
        "rec709_luma",
        "to_hex",
        "from_hex",
        "index",
        "palette_len",
        "palette_is_empty",
        "linear_to_xyz",
        "xyz_to_linear",
        "xyz_to_lab",
        "lab_to_xyz",
        "linear_to_lab",
        "lab_to_linear",
        "luminance",
        "chroma",
        "ab_distance",
        "clamped",
        "in_gamut",
    ];
    vectors::replay::<16, 16, _, _>(&rt, "color.txt", 262144, &functions, answer)
}
