// Replays the stored answers of the crate `modulate`: the answer of each call, and every slice that it leaves behind,
// every bit.
#![tactic(auto)]

use answers::{Refusal, outcome_number};
use layout::Layout;
use modulate::Cell;
use std::io;
use vectors::{Answers, Inputs, Value};

// ---- the functions of numbers

// 0 and the number, or the refusal's number alone.
fn put_number(answers: &mut Answers, number: Result<usize, Refusal>) {
    stage_words::put_result(answers, number, |answers, n| answers.put(n));
}

// luma_mask_row id x y count = bits: bit i is luma_mask(id, x + i, y), of at most 64.
fn luma_mask_row(inputs: &mut Inputs) -> u64 {
    let id = inputs.take();
    let x: u64 = inputs.take();
    let y = inputs.take();
    let count: u64 = inputs.take();
    let mut bits = 0;
    // By index: i is the number of a bit.
    for i in 0..64u64 {
        if i < count && symbols::luma_mask(id, u16::of_word(x.wrapping_add(i)), y) {
            bits |= 1 << i;
        }
    }
    bits
}

// ---- the functions of slices

// Takes a cell: whether it is one, and its coordinates.
fn take_cell(inputs: &mut Inputs) -> Cell {
    let placed = inputs.take();
    let cx = inputs.take();
    let cy = inputs.take();
    if placed {
        Cell::At(cx, cy)
    } else {
        Cell::Unmasked
    }
}

// chroma_bit_llrs |ll| cell cx cy hues |out| = no |out|'
fn chroma_bit_llrs(inputs: &mut Inputs, answers: &mut Answers) {
    let (mut ll, mut out) = ([0.0f32; 64], [0.0f32; 64]);
    let ll_len = inputs.load(&mut ll);
    let ll = &ll[..ll_len];
    let cell = take_cell(inputs);
    let hues = inputs.take();
    let out_len = inputs.load(&mut out);
    let out = &mut out[..out_len];
    answers.put(outcome_number(modulate::chroma_bit_llrs(ll, cell, hues, out)));
    answers.put_list(out);
}

// unmask_luma |luma| side |xs| |ys| grid mask = no |luma|'
fn unmask_luma(inputs: &mut Inputs, answers: &mut Answers) {
    let (mut luma, mut xs, mut ys) = ([0.0f32; 64], [0i32; 64], [0i32; 64]);
    let luma_len = inputs.load(&mut luma);
    let luma = &mut luma[..luma_len];
    let side = inputs.take();
    let xs_len = inputs.load(&mut xs);
    let xs = &xs[..xs_len];
    let ys_len = inputs.load(&mut ys);
    let ys = &ys[..ys_len];
    let unmasked = modulate::unmask_luma(luma, side, xs, ys, inputs.take(), inputs.take());
    answers.put(outcome_number(unmasked));
    answers.put_list(luma);
}

// read_list |scores| |out| = no |out|'
fn read_list(inputs: &mut Inputs, answers: &mut Answers) {
    let (mut scores, mut bits) = ([0.0f32; 64], [0u8; 64]);
    let scores_len = inputs.load(&mut scores);
    let scores = &scores[..scores_len];
    let bits_len = inputs.load(&mut bits);
    let bits = &mut bits[..bits_len];
    answers.put(outcome_number(reading::read_list(scores, bits)));
    answers.put_list(bits);
}

// draw |bits| side hues size |xs| |ys| grid |cxs| |cys| mask |levels| |hues| = no |levels|' |hues|'
fn draw(inputs: &mut Inputs, answers: &mut Answers) {
    let (mut bits, mut levels, mut drawn) = ([0u8; 128], [0u8; 64], [0usize; 64]);
    let (mut xs, mut ys) = ([0i32; 64], [0i32; 64]);
    let (mut cxs, mut cys) = ([0u16; 64], [0u16; 64]);
    let bits_len = inputs.load(&mut bits);
    let bits = &bits[..bits_len];
    let side = inputs.take();
    let hues = inputs.take();
    let size = inputs.take();
    let xs_len = inputs.load(&mut xs);
    let xs = &xs[..xs_len];
    let ys_len = inputs.load(&mut ys);
    let ys = &ys[..ys_len];
    let grid = inputs.take();
    let cxs_len = inputs.load(&mut cxs);
    let cxs = &cxs[..cxs_len];
    let cys_len = inputs.load(&mut cys);
    let cys = &cys[..cys_len];
    let mask = inputs.take();
    let levels_len = inputs.load(&mut levels);
    let levels = &mut levels[..levels_len];
    let drawn_len = inputs.load(&mut drawn);
    let drawn = &mut drawn[..drawn_len];
    let layout = Layout {
        side,
        hues,
        size,
        grid,
    };
    let outcome = modulate::draw(bits, layout, xs, ys, cxs, cys, mask, levels, drawn);
    answers.put(outcome_number(outcome));
    answers.put_list(levels);
    answers.put_list(drawn);
}

// ---- the list

// Calls the function of this name.
fn answer(name: &str, inputs: &mut Inputs, answers: &mut Answers) {
    match name {
        "gray" => answers.put(symbols::gray(inputs.take())),
        "gray_inverse" => answers.put(symbols::gray_inverse(inputs.take())),
        "chroma_symbol_to_hue" => put_number(
            answers,
            symbols::chroma_symbol_to_hue(inputs.take(), inputs.take()),
        ),
        "hue_to_chroma_symbol" => put_number(
            answers,
            symbols::hue_to_chroma_symbol(inputs.take(), inputs.take()),
        ),
        "luma_mask_row" => answers.put(luma_mask_row(inputs)),
        "chroma_rotation" => put_number(
            answers,
            symbols::chroma_rotation(inputs.take(), inputs.take(), inputs.take()),
        ),
        "chroma_mask_apply" => put_number(
            answers,
            symbols::chroma_mask_apply(inputs.take(), inputs.take(), inputs.take(), inputs.take()),
        ),
        "chroma_mask_remove" => put_number(
            answers,
            symbols::chroma_mask_remove(inputs.take(), inputs.take(), inputs.take(), inputs.take()),
        ),
        "read" => answers.put(reading::read(inputs.take())),
        "chroma_bit_llrs" => chroma_bit_llrs(inputs, answers),
        "unmask_luma" => unmask_luma(inputs, answers),
        "read_list" => read_list(inputs, answers),
        "draw" => draw(inputs, answers),
        _ => {}
    }
}

fn main(rt: HostRuntime) -> io::Result<()> {
    let functions = [
        "gray",
        "gray_inverse",
        "chroma_symbol_to_hue",
        "hue_to_chroma_symbol",
        "luma_mask_row",
        "chroma_rotation",
        "chroma_mask_apply",
        "chroma_mask_remove",
        "read",
        "chroma_bit_llrs",
        "unmask_luma",
        "read_list",
        "draw",
    ];
    vectors::replay::<256, 256, _, _>(&rt, "modulate.txt", 262144, &functions, answer)
}
