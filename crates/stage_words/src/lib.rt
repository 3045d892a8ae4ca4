// The records of the colour stage as words of a list: a colour, a noise record (STATS), an illumination model (MODEL), a card; and
// the references and the scratch that are lent to a call.
//
// STATS is l0 l1 sigma_l sigma_ab level0 level1 (f32), samples. MODEL is terms side rms rejected kept width, then f64: affine
// 3 x 4, gain 3 x width, flare 3 x width; side and rms are f32, width is 4 or 9.
#![tactic(auto)]

ghost use Rattle.std.specs.Prelude.{◌≡◌, ℕ, ◌+◌, ◌*◌, ◌<◌, ◌≤◌, min, length, take, drop, slice_index, slice_index_or, IfOk, IfErr};
ghost use Rattle.answers.specs.Answers.{number_of};
ghost use Rattle.vectors.specs.Answers.{placed};
ghost use Rattle.vectors.specs.Answers as answering;
ghost use Rattle.stage_words.specs.Records as spec;
ghost use Rattle.stage_words.specs.Cards as card;
ghost use Rattle.stage_words.specs.Answered as answered;
ghost use Rattle.stage_words.specs.Scratch.{lent_of};

use answers::Refusal;
use color::{Lab, Linear};
use illum::IlluminationModel;
use layout::Layout;
use stats::ChannelStats;
use vectors::{Answers, Inputs, Value};

// ---- inputs

// Takes a colour.
// Twin: of `take_lab`, whose fields have other names.
#[tactic(auto, unfolding(crate::specs::Records::linear_at))]
pub fn take_linear(inputs: &mut Inputs) -> Linear
    ensures value { result ≡ spec.linear_at inputs.old.rest.now 0 }
    ensures rest { inputs.new.rest.now ≡ drop 3 inputs.old.rest.now }
{
    Linear {
        r: inputs.take(),
        g: inputs.take(),
        b: inputs.take(),
    }
}

// Takes a colour in Lab.
// Twin: of `take_linear`, whose fields have other names.
#[tactic(auto, unfolding(crate::specs::Records::lab_at))]
pub fn take_lab(inputs: &mut Inputs) -> Lab
    ensures value { result ≡ spec.lab_at inputs.old.rest.now 0 }
    ensures rest { inputs.new.rest.now ≡ drop 3 inputs.old.rest.now }
{
    Lab {
        l: inputs.take(),
        a: inputs.take(),
        b: inputs.take(),
    }
}

// Takes a noise record.
#[tactic(auto, unfolding(crate::specs::Records::noise_at))]
pub fn take_noise(inputs: &mut Inputs) -> ChannelStats
    ensures value { result ≡ spec.noise_at inputs.old.rest.now 0 }
    ensures rest { inputs.new.rest.now ≡ drop 7 inputs.old.rest.now }
{
    ChannelStats {
        l0: inputs.take(),
        l1: inputs.take(),
        sigma_l: inputs.take(),
        sigma_ab: inputs.take(),
        sigma_ab_dark: inputs.take(),
        sigma_ab_light: inputs.take(),
        samples: inputs.take(),
    }
}

// Takes a row of a model's affine part.
#[tactic(auto, unfolding(crate::specs::Records::affine_at))]
fn take_affine(inputs: &mut Inputs) -> [f64; 4]
    ensures value { result ≡ spec.affine_at inputs.old.rest.now 0 0 }
    ensures rest { inputs.new.rest.now ≡ drop 4 inputs.old.rest.now }
{
    [inputs.take(), inputs.take(), inputs.take(), inputs.take()]
}

// Takes the coefficients of a surface, as many as its width says; past them they are +0.
fn take_surface(inputs: &mut Inputs, width: usize) -> [f64; 9]
    requires { width ≤ 9 }
    ensures value { result ≡ spec.surface_of inputs.old.rest.now width }
    ensures rest { inputs.new.rest.now ≡ drop width inputs.old.rest.now }
{
    let mut c = [0.0; 9];
    inputs.take_all(&mut c[..width]);
    c
}

// Takes a model.
#[tactic(auto, unfolding(crate::specs::Records::model_taken), using(crate::proofs::Widths::few))]
pub fn take_model(inputs: &mut Inputs) -> IlluminationModel
    ensures value { result ≡ spec.model_taken inputs.old.rest.now (spec.width_taken inputs.old.rest.now) }
    ensures rest { inputs.new.rest.now ≡ drop (18 + 6 * spec.width_taken inputs.old.rest.now) inputs.old.rest.now }
{
    let terms = inputs.take();
    let side = inputs.take();
    let residual_rms = inputs.take();
    let rejected = inputs.take();
    let kept = inputs.take();
    let width = illum::terms_used(inputs.take());
    IlluminationModel {
        affine_r: take_affine(inputs),
        affine_g: take_affine(inputs),
        affine_b: take_affine(inputs),
        gain_r: take_surface(inputs, width),
        gain_g: take_surface(inputs, width),
        gain_b: take_surface(inputs, width),
        flare_r: take_surface(inputs, width),
        flare_g: take_surface(inputs, width),
        flare_b: take_surface(inputs, width),
        terms,
        side,
        residual_rms,
        rejected,
        kept,
    }
}

// ---- answers

// Core: puts 0 and then what `put` puts of the value, or the refusal's number alone.
pub fn put_result<T, F: FnOnce(&mut Answers, T)>(
    answers: &mut Answers,
    outcome: Result<T, Refusal>,
    put: F,
)
    requires { F.IsAlwaysCallable put }
    ensures refused { IfErr outcome (λ refusal. placed answers.new.count answers.new.words ≡ answering.put (number_of refusal) (placed answers.old.count answers.old.words)) }
    ensures accepted { IfOk outcome (λ value. (before : _) × (after : _) × (placed before.now.count before.now.words ≡ answering.put 0 (placed answers.old.count answers.old.words)) × F.post put before value tt after × (after.now ≡ answers.new)) }
{
    match outcome {
        Ok(value) => {
            answers.put(0u32);
            put(answers, value);
        }
        Err(refusal) => answers.put(u32::from(refusal)),
    }
}

// Puts a colour.
#[tactic(auto, unfolding(crate::specs::Records::linear_words, loops::specs::Loops::for_up, loops::specs::Loops::turns, vectors::specs::Slices::store_at))]
pub fn put_linear(answers: &mut Answers, c: Linear)
    ensures { placed answers.new.count answers.new.words ≡ spec.put_words (spec.linear_words c) (placed answers.old.count answers.old.words) }
{
    answers.put(c.r);
    answers.put(c.g);
    answers.put(c.b);
}

// Puts a noise record.
#[tactic(auto, unfolding(crate::specs::Records::noise_words, loops::specs::Loops::for_up, loops::specs::Loops::turns, vectors::specs::Slices::store_at))]
pub fn put_noise(answers: &mut Answers, n: ChannelStats)
    ensures { placed answers.new.count answers.new.words ≡ spec.put_words (spec.noise_words n) (placed answers.old.count answers.old.words) }
{
    answers.put(n.l0);
    answers.put(n.l1);
    answers.put(n.sigma_l);
    answers.put(n.sigma_ab);
    answers.put(n.sigma_ab_dark);
    answers.put(n.sigma_ab_light);
    answers.put(n.samples);
}

// Puts what a model has before its coefficients, and the width of its surfaces, n.
#[tactic(auto, unfolding(crate::specs::Records::head_words, loops::specs::Loops::for_up, loops::specs::Loops::turns, vectors::specs::Slices::store_at))]
fn put_head(answers: &mut Answers, m: &IlluminationModel, n: usize)
    ensures { placed answers.new.count answers.new.words ≡ spec.put_words (spec.head_words m.now n) (placed answers.old.count answers.old.words) }
{
    answers.put(m.terms);
    answers.put(m.side);
    answers.put(m.residual_rms);
    answers.put(m.rejected);
    answers.put(m.kept);
    answers.put(n);
}

// Puts one word more where something is not as it should be.
#[tactic(auto, unfolding(crate::specs::Records::put_other))]
fn put_other(answers: &mut Answers, other: bool)
    ensures { placed answers.new.count answers.new.words ≡ spec.put_other other (placed answers.old.count answers.old.words) }
{
    if other {
        answers.put(1u32);
    }
}

// Whether one of some values has another word than this.
fn any_other<T: Value>(values: &[T], word: u64) -> bool
    ensures { result ≡ answered.any_other T.word_of word values.now }
{
    values.iter().any(|x| x.word() != word)
}

// Puts the first n coefficients of a surface, and one word more where one of the others is not +0.
#[tactic(auto, unfolding(crate::specs::Answered::put_surface))]
fn put_surface(answers: &mut Answers, c: &[f64; 9], n: usize)
    requires { n ≤ 9 }
    ensures { placed answers.new.count answers.new.words ≡ answered.put_surface c.now n (placed answers.old.count answers.old.words) }
{
    answers.put_all(&c[..n]);
    put_other(answers, any_other(&c[n..], 0));
}

// Puts a model, with surfaces of 4 coefficients where it has 4 terms, and of 9 else.
#[tactic(auto, unfolding(crate::specs::Answered::put_model_of), using(crate::proofs::Widths::few))]
pub fn put_model(answers: &mut Answers, m: &IlluminationModel)
    ensures { placed answers.new.count answers.new.words ≡ answered.put_model m.now (placed answers.old.count answers.old.words) }
{
    let n = illum::terms_used(m.terms);
    put_head(answers, m, n);
    answers.put_all(&m.affine_r);
    answers.put_all(&m.affine_g);
    answers.put_all(&m.affine_b);
    put_surface(answers, &m.gain_r, n);
    put_surface(answers, &m.gain_g, n);
    put_surface(answers, &m.gain_b, n);
    put_surface(answers, &m.flare_r, n);
    put_surface(answers, &m.flare_g, n);
    put_surface(answers, &m.flare_b, n);
}

// How many elements, from the first on, are +0.
#[tactic(auto, unfolding(crate::specs::Answered::zeros))]
fn zeros(values: &[f32]) -> usize
    ensures value { result ≡ answered.zeros values.now }
    ensures within { result ≤ length values.now }
{
    values.iter().take_while(|x| x.word() == 0).count()
}

// Puts how many elements of a scratch, from the first on, are +0, and one word more where one of the rest is not the v that it
// was filled with.
#[tactic(auto, unfolding(crate::specs::Answered::put_scratch))]
pub fn put_scratch(answers: &mut Answers, scratch: &[f32], v: f32)
    ensures { placed answers.new.count answers.new.words ≡ answered.put_scratch scratch.now v (placed answers.old.count answers.old.words) }
{
    let n = zeros(scratch);
    answers.put(n);
    put_other(answers, any_other(&scratch[n..], v.word()));
}

// ---- lent memory

// The first n elements of a list, or all where it has fewer.
pub fn front<T>(list: &[T], n: usize) -> &[T]
    ensures len { length result.now ≡ min n (length list.now) }
    ensures values { (k : ℕ) (d : T) → k < length result.now → slice_index_or result.now k d ≡ slice_index_or list.now k d }
{
    list.get(..n).unwrap_or(list)
}

// As much of a list's flat floats as a call for n references is lent, from which it takes its count: eight for each where these
// are there, and else a part that is too short, its last reference not whole.
// Slices: n is what a record asks for, and need not fit the list.
#[tactic(auto, unfolding(crate::specs::Scratch::lent_of))]
pub fn lent(flat: &[f32], n: usize) -> &[f32]
    ensures { result.now ≡ take (lent_of (length flat.now) n) flat.now }
{
    let whole = flat.len() / 8;
    if n <= whole {
        return &flat[..8 * n];
    }
    if whole == 0 {
        return flat;
    }
    &flat[..8 * whole - 1]
}

// ---- a card

// What a card is scored from: its layout, the places and the raw colours of its modules and of its cells, its palette, and the
// model and the noise record of its capture.
#[derive(Clone, Copy, Debug)]
pub struct Card<'a> {
    pub layout: Layout,
    pub xs: &'a [i32],
    pub ys: &'a [i32],
    pub raw: &'a [f32],
    pub cxs: &'a [u16],
    pub cys: &'a [u16],
    pub cell_raw: &'a [f32],
    pub palette: &'a [f32],
    pub model: IlluminationModel,
    pub noise: ChannelStats,
}

// Room for the lists of a card.
#[derive(Clone, Copy, Debug)]
pub struct CardRoom {
    xs: [i32; 512],
    ys: [i32; 512],
    raw: [f32; 2048],
    cxs: [u16; 512],
    cys: [u16; 512],
    cell_raw: [f32; 2048],
    palette: [f32; 256],
}

impl CardRoom {
    // Room with nothing in it.
    #[tactic(auto, unfolding(crate::specs::Cards::no_card))]
    pub fn new() -> CardRoom
        ensures { result ≡ card.no_card }
    {
        CardRoom {
            xs: [0; 512],
            ys: [0; 512],
            raw: [0.0; 2048],
            cxs: [0; 512],
            cys: [0; 512],
            cell_raw: [0.0; 2048],
            palette: [0.0; 256],
        }
    }
}

// Takes what stands in a record from a card's modules on, of a card with this side, these hues and cells of this size.
pub fn take_card<'a>(
    inputs: &mut Inputs,
    side: usize,
    hues: usize,
    size: usize,
    room: &'a mut CardRoom,
) -> Card<'a>
    ensures shape { (result.layout.side ≡ side) × (result.layout.hues ≡ hues) × (result.layout.size ≡ size) }
    ensures grid { result.layout.grid ≡ slice_index (card.at_grid inputs.old.rest.now) 0 }
    ensures xs { card.listed card.signed 512 inputs.old.rest.now result.xs.now }
    ensures ys { card.listed card.signed 512 (card.at_ys inputs.old.rest.now) result.ys.now }
    ensures raw { card.listed card.single 2048 (card.at_raw inputs.old.rest.now) result.raw.now }
    ensures cxs { card.listed card.short 512 (card.at_cxs inputs.old.rest.now) result.cxs.now }
    ensures cys { card.listed card.short 512 (card.at_cys inputs.old.rest.now) result.cys.now }
    ensures cell_raw { card.listed card.single 2048 (card.at_cell_raw inputs.old.rest.now) result.cell_raw.now }
    ensures palette { card.listed card.single 256 (card.at_palette inputs.old.rest.now) result.palette.now }
    ensures model { result.model ≡ spec.model_taken (card.at_model inputs.old.rest.now) (spec.width_taken (card.at_model inputs.old.rest.now)) }
    ensures noise { result.noise ≡ spec.noise_at (card.at_noise inputs.old.rest.now) 0 }
    ensures rest { inputs.new.rest.now ≡ drop 7 (card.at_noise inputs.old.rest.now) }
{
    let CardRoom {
        xs,
        ys,
        raw,
        cxs,
        cys,
        cell_raw,
        palette,
    } = room;
    let xs_len = inputs.load(xs);
    let xs = front(xs, xs_len);
    let ys_len = inputs.load(ys);
    let ys = front(ys, ys_len);
    let grid = inputs.take();
    let raw_len = inputs.load(raw);
    let raw = front(raw, raw_len);
    let cxs_len = inputs.load(cxs);
    let cxs = front(cxs, cxs_len);
    let cys_len = inputs.load(cys);
    let cys = front(cys, cys_len);
    let cell_raw_len = inputs.load(cell_raw);
    let cell_raw = front(cell_raw, cell_raw_len);
    let palette_len = inputs.load(palette);
    let palette = front(palette, palette_len);
    Card {
        layout: Layout {
            side,
            hues,
            size,
            grid,
        },
        xs,
        ys,
        raw,
        cxs,
        cys,
        cell_raw,
        palette,
        model: take_model(inputs),
        noise: take_noise(inputs),
    }
}
