// Replays the stored answers of the crate `stats`: each method of a noise record, `nominal` and the margin check, refused calls
// too, every bit.
#![tactic(auto)]

use answers::{Refusal, outcome_number};
use margin::Threshold;
use stage_words::{put_result, take_lab, take_noise};
use stats::ChannelStats;
use std::io;
use vectors::{Answers, Inputs};

// Puts 0 and a figure for each sample that the inputs have, their count first, or the number of the first refusal.
fn put_figures<F: Fn(&mut Inputs) -> Result<f32, Refusal>>(
    inputs: &mut Inputs,
    answers: &mut Answers,
    next_figure: F,
)
    requires { F.IsAlwaysCallable next_figure }
{
    let mut room = [0.0; 64];
    let figures = figures(inputs, &mut room, next_figure);
    put_result(answers, figures, |answers, figures| {
        answers.put_all(figures)
    });
}

// The figures, at the start of a room.
fn figures<'a, F: Fn(&mut Inputs) -> Result<f32, Refusal>>(
    inputs: &mut Inputs,
    room: &'a mut [f32],
    next_figure: F,
) -> Result<&'a [f32], Refusal>
    requires { F.IsAlwaysCallable next_figure }
{
    let n = inputs.take();
    let (figures, _) = vectors::spread(room, n, 0.0);
    for figure in figures.iter_mut() {
        *figure = next_figure(inputs)?;
    }
    Ok(figures)
}

// nominal PALETTE hues = no STATS
fn nominal(inputs: &mut Inputs, answers: &mut Answers) {
    let mut palette = [0.0; 256];
    let palette_len = inputs.load(&mut palette);
    let palette = &palette[..palette_len];
    let nominal = ChannelStats::nominal(palette, inputs.take());
    put_result(answers, nominal, stage_words::put_noise);
}

// hue_log_likelihoods STATS PALETTE hues l a b |out| = no |out|', past the hues
// Slices: the public call takes a palette and its hues so.
fn hue_log_likelihoods(
    noise: ChannelStats,
    palette: &[f32],
    hues: usize,
    inputs: &mut Inputs,
    answers: &mut Answers,
) {
    let mut out = [0.0; 32];
    let sample = take_lab(inputs);
    let out_len = inputs.load(&mut out);
    let out = &mut out[..out_len];
    let outcome = noise.hue_log_likelihoods(sample, palette, hues, out);
    answers.put(outcome_number(outcome));
    answers.put_list(out);
}

// The setting of the margin check that a word names: 9 where it is 1.
fn setting(nine: usize) -> Threshold {
    if nine == 1 {
        Threshold::Nine
    } else {
        Threshold::Thirteen
    }
}

// Calls the function of this name, of a noise record and a palette.
//
// reliability STATS PALETTE hues count (l a b).. = no r..
// margin STATS PALETTE hues = no yes
// margin_at STATS PALETTE hues nine = no yes
fn of_palette(name: &str, inputs: &mut Inputs, answers: &mut Answers) {
    let mut palette = [0.0; 256];
    let noise = take_noise(inputs);
    let palette_len = inputs.load(&mut palette);
    let palette = &palette[..palette_len];
    let hues = inputs.take();
    match name {
        "reliability" => put_figures(inputs, answers, |inputs| {
            noise.reliability(take_lab(inputs), palette, hues)
        }),
        "hue_log_likelihoods" => hue_log_likelihoods(noise, palette, hues, inputs, answers),
        "margin" => {
            let held = margin::margin(noise, palette, hues);
            put_result(answers, held, Answers::put)
        }
        "margin_at" => {
            let least = setting(inputs.take());
            let held = margin::margin_at(least, noise, palette, hues);
            put_result(answers, held, Answers::put)
        }
        _ => {}
    }
}

// Calls the function of this name.
//
// sigma_ab_at STATS count l.. = no r..
// luma_llr STATS count l.. = no r..
fn answer(name: &str, inputs: &mut Inputs, answers: &mut Answers) {
    match name {
        "nominal" => nominal(inputs, answers),
        "sigma_ab_at" => {
            let noise = take_noise(inputs);
            put_figures(inputs, answers, |inputs| noise.sigma_ab_at(inputs.take()))
        }
        "luma_llr" => {
            let noise = take_noise(inputs);
            put_figures(inputs, answers, |inputs| noise.luma_llr(inputs.take()))
        }
        _ => of_palette(name, inputs, answers),
    }
}

fn main(rt: HostRuntime) -> io::Result<()> {
    let functions = [
        "nominal",
        "sigma_ab_at",
        "luma_llr",
        "reliability",
        "hue_log_likelihoods",
        "margin",
        "margin_at",
    ];
    vectors::replay::<256, 64, _, _>(&rt, "stats.txt", 163840, &functions, answer)
}
