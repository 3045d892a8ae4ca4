// Replays whole cards from their raw colours on: scoring, refinement, unmasking and reading, beside what the Rust's `demodulate`
// gives in one piece, its last call included. Every luma score, corrected colour, chroma score and bit is compared, and how many
// modules and cells have a mark.
#![tactic(auto)]

use answers::Refusal;
use demod::ScoreReport;
use stage_words::{Card, CardRoom};
use std::io;
use vectors::{Answers, Inputs};

// Scores and refines a card, and answers scoring's report, or the refusal of the first call refused.
fn demodulate(
    card: &Card,
    luma: &mut [f32],
    colours: &mut [f32],
    chroma: &mut [f32],
) -> Result<ScoreReport, Refusal> {
    let Card {
        layout,
        xs,
        ys,
        raw,
        cxs,
        cys,
        cell_raw,
        palette,
        model,
        noise,
    } = *card;
    let mut scratch = [0.0f32; 2048];
    let report = demod::score(
        layout, xs, ys, raw, cxs, cys, cell_raw, palette, model, noise, luma, colours, chroma,
    )?;
    refine::add_local_luma(
        luma,
        layout.side,
        layout.hues,
        xs,
        ys,
        layout.grid,
        colours,
        palette,
        noise,
        &mut scratch,
    )?;
    Ok(report)
}

// Reads scores, and puts their bits or the refusal's number.
fn put_bits(answers: &mut Answers, scores: &[f32]) {
    let mut bits = [0u8; 2048];
    let (bits, _) = vectors::spread(&mut bits, scores.len(), 0);
    match reading::read_list(scores, bits) {
        Ok(()) => answers.put_list(bits),
        Err(refusal) => answers.put(u32::from(refusal)),
    }
}

// Unmasks the luma scores, and puts the bits of both lists or the refusal's number.
fn put_card_bits(answers: &mut Answers, card: &Card, mask: u8, luma: &mut [f32], chroma: &[f32]) {
    let layout = card.layout;
    match modulate::unmask_luma(luma, layout.side, card.xs, card.ys, layout.grid, mask) {
        Ok(()) => {
            put_bits(answers, luma);
            put_bits(answers, chroma);
        }
        Err(refusal) => answers.put(u32::from(refusal)),
    }
}

// Puts what the calls on a card give, or the number of the first call refused. The outputs are each as long as they must be:
// `scores` chroma scores.
fn put_card(answers: &mut Answers, card: &Card, mask: u8, scores: usize) {
    let (mut luma, mut colours, mut chroma) = ([0.0f32; 512], [0.0f32; 2048], [0.0f32; 2048]);
    let (luma, _) = vectors::spread(&mut luma, card.xs.len(), 0.0);
    let (colours, _) = vectors::spread(&mut colours, card.raw.len(), 0.0);
    let (chroma, _) = vectors::spread(&mut chroma, scores, 0.0);
    let demodulated = demodulate(card, luma, colours, chroma);
    stage_words::put_result(answers, demodulated, |answers, report| {
        answers.put(report.held_modules);
        answers.put(report.held_cells);
        answers.put_list(luma);
        answers.put_list(colours);
        answers.put_list(chroma);
        put_card_bits(answers, card, mask, luma, chroma);
    });
}

// whole side hues size mask |xs| |ys| grid |raw| |cxs| |cys| |cell_raw| |palette| MODEL STATS chroma
//     = no modules cells |luma| |colours| |chroma| |luma bits| |chroma bits|
fn whole(inputs: &mut Inputs, answers: &mut Answers) {
    let mut room = CardRoom::new();
    let side = inputs.take();
    let hues = inputs.take();
    let size = inputs.take();
    let mask = inputs.take();
    let card = stage_words::take_card(inputs, side, hues, size, &mut room);
    put_card(answers, &card, mask, inputs.take());
}

// Twin: each program's main names its own list and its own functions.
fn main(rt: HostRuntime) -> io::Result<()> {
    let answer = |_: &str, inputs: &mut Inputs, answers: &mut Answers| whole(inputs, answers);
    vectors::replay::<4096, 4096, _, _>(&rt, "whole.txt", 262144, &["whole"], answer)
}
