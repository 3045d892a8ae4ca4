// The fit of the illumination model to references of known colour, ported from illum.rs: two passes, each of which fits a gain
// and a flare surface a channel and then the affine part over the de-shaded observations; between them the references whose
// residual is above 3 sigma are dropped.
//
// References are flat floats, eight each: x, y, the observed colour, the nominal colour.
//
//     let mut kept = [0u8; 256];
//     let mut scratch = [0.0f32; 1024];
//     match fit::fit_flat(&flat, 21, 1, &mut kept, &mut scratch) { .. }      // up to 256 references of a card of side 21, version 1
#![tactic(auto)]

ghost use Rattle.std.specs.Prelude.{◌≡◌, false, ◌*◌, ◌/◌, ◌≤◌, length, IfOk, IfSome};
ghost use Rattle.sentences.specs.Sentences.{refusal};
ghost use Rattle.answers.specs.Answers.{outcome_number};
ghost use Rattle.illum.specs.Refusals.{model_said};
ghost use Rattle.residuals.specs.Residual.{residuals_of};
ghost use Rattle.fit.specs.Fit as spec;
ghost use Rattle.fit.specs.Fit.{final, request, flat_request, ran, dropped};

use answers::Refusal;
use equations::{Selection, live};
use illum::IlluminationModel;
use references::References;

// ---- the passes. Of their scratch, 4 floats a reference, the first n are the live marks, the next n the residuals, and the rest
// is room for a median.
// Facts: each function is lent another choice of the three, some shared and some to write; a struct of all three would
// lend each more than it reads or writes.

// The model with another residual.
fn with_rms(m: IlluminationModel, rms: f32) -> IlluminationModel
    ensures { result ≡ spec.with_rms m rms }
{
    IlluminationModel {
        residual_rms: rms,
        ..m
    }
}

// The model with other counts.
fn with_counts(m: IlluminationModel, rejected: u32, kept: u32) -> IlluminationModel
    ensures { result ≡ spec.with_counts m rejected kept }
{
    IlluminationModel {
        rejected,
        kept,
        ..m
    }
}

// Sentence 11: a number of the model or one of the residuals is not finite.
#[tactic(auto, unfolding(crate::specs::Fit::bad_pass))]
fn bad_pass(m: IlluminationModel, residuals: &[f32]) -> bool
    ensures { result ≡ spec.bad_pass m residuals.now (length residuals.now) }
{
    illum::not_finite_model(m) || residuals::not_finite_in(residuals)
}

// One pass over the live references, from model m: its model, where it has a solution, whose residuals it leaves. Refused by 11.
fn run_pass(
    m: IlluminationModel,
    selection: &Selection,
    residuals: &mut [f32],
) -> Result<Option<IlluminationModel>, Refusal>
    requires { (length residuals.old ≡ selection.now.references.n) × (selection.now.references.n ≤ 16384) }
    ensures passed { result ≡ spec.pass_of m selection.now.references.flat.now selection.now.marks.now selection.now.references.n }
    ensures residuals { IfOk result (λ o. IfSome o (λ model. residuals.new ≡ residuals_of model selection.now.references.flat.now selection.now.references.n)) }
{
    let Some(solution) = selection.fit_once(m) else {
        return Ok(None);
    };
    residuals::write_residuals(residuals, solution, &selection.references);
    let model = with_rms(
        solution,
        residuals::residual_rms(residuals, selection.marks),
    );
    if bad_pass(model, residuals) {
        return Err(Refusal::Fit);
    }
    Ok(Some(model))
}

// Drops the references whose residual is above 3 sigma, and counts them in the model.
fn drop_outliers(
    m: IlluminationModel,
    live: &mut [f32],
    residuals: &[f32],
    room: &mut [f32],
) -> IlluminationModel
    requires lengths { (length live.old ≡ length residuals.now) × (2 * length residuals.now ≤ length room.old) }
    requires few { length residuals.now ≤ 16384 }
    ensures { dropped result live.new ≡ spec.dropped_of m residuals.now live.old (length residuals.now) }
{
    let sigma = order::mad_sigma_core(residuals, room);
    let rejected = residuals::reject(live, residuals, residuals::limit(sigma));
    with_counts(m, rejected as u32, m.kept)
}

// What comes after pass one: m's outliers dropped, and pass two. Refused by 11.
fn refit(
    m: IlluminationModel,
    references: References,
    live: &mut [f32],
    residuals: &mut [f32],
    room: &mut [f32],
) -> Result<IlluminationModel, Refusal>
    requires lengths { (length live.old ≡ references.n) × (length residuals.old ≡ references.n) × (2 * references.n ≤ length room.old) }
    requires few { references.n ≤ 16384 }
    ensures { ran (model_said result) live.new ≡ spec.refitted m references.entry.flat.now residuals.old live.old references.entry.n }
{
    let first = drop_outliers(m, live, residuals, room);
    let selection = Selection {
        references,
        marks: live,
    };
    let Some(model) = run_pass(first, &selection, residuals)? else {
        return Ok(first);
    };
    let kept = selection.count() as u32;
    Ok(with_counts(model, model.rejected, kept))
}

// Core: the fit of references that the sentences 2 to 8 let pass. Refused by 11. The live marks are left as they are at the
// end.
pub fn fit_live(
    references: References,
    side: usize,
    terms: usize,
    live: &mut [f32],
    residuals: &mut [f32],
    room: &mut [f32],
) -> Result<IlluminationModel, Refusal>
    requires lengths { (length live.old ≡ references.n) × (length residuals.old ≡ references.n) × (2 * references.n ≤ length room.old) }
    requires side { side ≤ 1024 }
    requires few { references.n ≤ 16384 }
    ensures { ran (model_said result) live.new ≡ spec.fitted references.entry.flat.now references.entry.n side terms }
{
    residuals::revive(live);
    let start = illum::unit_model(side, terms);
    if references.n < 8 {
        return Ok(start);
    }
    let selection = Selection {
        references,
        marks: live,
    };
    let Some(model) = run_pass(start, &selection, residuals)? else {
        return Ok(start);
    };
    refit(model, references, live, residuals, room)
}

// ---- which references were kept

// The mark of a reference that has this live mark, of those that a model with this count of kept references was fitted to.
#[tactic(auto, unfolding(crate::specs::Fit::mark_of))]
fn kept_mark(count: u32, mark: f32) -> u8
    ensures { result ≡ spec.mark_of count mark }
{
    u8::from(count != 0 && live::is_live(mark))
}

// Writes the marks of the references.
fn write_marks(count: u32, live: &[f32], kept: &mut [u8])
    requires { length live.now ≤ length kept.old }
    ensures { kept.new ≡ spec.marks_of count live.now (length live.now) kept.old }
{
    for (i, &mark) in live.iter().enumerate() {
        kept[i] = kept_mark(count, mark);
    }
}

// ---- the calls
// Slices: the C interface lends them so.

// 4 terms below version 10, 9 from it on.
#[tactic(auto, unfolding(crate::specs::Fit::terms_for))]
fn terms_for(version: u8) -> usize
    ensures { result ≡ spec.terms_for version }
{
    if version < 10 { 4 } else { 9 }
}

// Sentence 5: fewer marks than references, or scratch shorter than 4 × n.
#[tactic(auto, unfolding(crate::specs::Fit::short))]
fn short(marks: usize, lent: usize, n: usize) -> bool
    ensures { result ≡ spec.short marks lent n }
{
    marks < n || references::short_scratch(lent, n)
}

// Refuses by the first sentence that holds.
fn check(flat: &[f32], n: usize, side: usize, marks: usize, lent: usize) -> Result<(), Refusal>
    requires { n ≤ 16384 → 8 * n ≤ length flat.now }
    ensures { outcome_number result ≡ refusal (spec.fit_sentences flat.now false n side marks lent) }
{
    if limits::bad_side(side) {
        return Err(Refusal::Side);
    }
    if short(marks, lent, n) {
        return Err(Refusal::Length);
    }
    references::check_references(side, flat, n)?;
    let references = References { flat, n };
    if references.bad_colours() {
        return Err(Refusal::Number);
    }
    Ok(())
}

// Core: fits n references, which stand in flat where there are no more than 16,384 of them. Refused by 2, 5 (kept shorter than n,
// or scratch than 4 × n), 6, 7, 8 and 11.
pub fn fit_counted(
    flat: &[f32],
    n: usize,
    side: usize,
    version: u8,
    kept: &mut [u8],
    scratch: &mut [f32],
) -> Result<IlluminationModel, Refusal>
    requires { n ≤ 16384 → 8 * n ≤ length flat.now }
    ensures { final (model_said result) kept.new scratch.new ≡ spec.fit_of (request flat.now false n side version kept.old scratch.old) }
{
    check(flat, n, side, kept.len(), scratch.len())?;
    let references = References { flat, n };
    let (live, rest) = scratch[..4 * n].split_at_mut(n);
    let (residuals, room) = rest.split_at_mut(n);
    let fitted = fit_live(references, side, terms_for(version), live, residuals, room);
    if let Ok(model) = fitted {
        write_marks(model.kept, live, kept);
    }
    references::clear(scratch, 4 * n);
    fitted
}

// Fits the model to references in flat floats, eight each, for a card of this side and version. The first byte a reference of kept
// is 1 for one that was kept and 0 for any other, and 0 for all where the model's count of kept ones is 0; its tail stays. Scratch
// of 4 × references is all zero afterwards, and its tail stays. Refused by 2, 5 (flat no multiple of eight long, or kept or scratch
// too short), 6, 7, 8 and 11; kept and scratch are untouched then, save that 11 leaves scratch zero.
pub fn fit_flat(
    flat: &[f32],
    side: usize,
    version: u8,
    kept: &mut [u8],
    scratch: &mut [f32],
) -> Result<IlluminationModel, Refusal>
    ensures scratch_after { final (model_said result) kept.new scratch.new ≡ spec.fit_of (flat_request flat.now side version kept.old scratch.old) }
    ensures marks_add_up { IfOk result (λ model. spec.MarksAddUp (length flat.now / 8) model kept.new) }
{
    if flat.len() % 8 == 0 {
        return fit_counted(flat, flat.len() / 8, side, version, kept, scratch);
    }
    if limits::bad_side(side) {
        return Err(Refusal::Side);
    }
    Err(Refusal::Length)
}
