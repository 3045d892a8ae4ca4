// References as a lent slice of records: `fit` and `measure` over `&[Reference]`, thin functions over those on flat floats.
//
//     let mut kept = [0u8; 256];
//     let mut scratch = [0.0f32; 1024];
//     match records::fit(&references, 21, 1, &mut kept, &mut scratch) { .. }      // up to 256 references of a card of side 21, version 1
//
// `fit` and `measure` copy the records into a local array of 8 × 16,384 floats, 512 KB of stack. A caller with less calls
// `fit::fit_flat` and `measure::measure_flat`, which take the same floats and give the same answers.
#![tactic(auto)]

ghost use Rattle.std.specs.Prelude.{◌≡◌, false, ◌++◌, ◌+◌, ◌*◌, ◌≤◌, length, take};
ghost use Rattle.fit.specs.Fit as fitting;
ghost use Rattle.measure.specs.Measure as measuring;
ghost use Rattle.answers.specs.Answers.{said};
ghost use Rattle.illum.specs.Refusals.{model_said};
ghost use Rattle.records.specs.Records as spec;

use answers::Refusal;
use color::Linear;
use illum::IlluminationModel;
use measure::Measurement;

// A reference of known colour: its position in modules, the colour that was observed there, and the colour that was drawn.
#[repr(C)]
#[derive(Clone, Copy, Debug)]
pub struct Reference {
    pub x: f32,
    pub y: f32,
    pub observed: Linear,
    pub nominal: Linear,
}

// ---- records to floats

// Writes a record to the eight floats of reference i.
fn put(flat: &mut [f32], i: usize, r: Reference)
    requires { 8 * i + 8 ≤ length flat.old }
    ensures { take (8 * (i + 1)) flat.new ≡ take (8 * i) flat.old ++ spec.eight r }
{
    flat[8 * i..8 * i + 8].copy_from_slice(&[
        r.x,
        r.y,
        r.observed.r,
        r.observed.g,
        r.observed.b,
        r.nominal.r,
        r.nominal.g,
        r.nominal.b,
    ]);
}

// How many of n records are copied: none where there are more than 16,384, since the call is refused then.
#[tactic(auto, unfolding(crate::specs::Records::copied))]
fn copied(n: usize) -> usize
    ensures { result ≡ spec.copied n }
{
    if references::too_many(n) { 0 } else { n }
}

// Copies the first m records.
fn gather(refs: &[Reference], m: usize, flat: &mut [f32])
    requires { (m ≤ length refs.now) × (8 * m ≤ length flat.old) }
    ensures { take (8 * m) flat.new ≡ spec.flattened (take m refs.now) }
{
    for (i, r) in refs[..m].iter().enumerate() {
        put(flat, i, *r);
    }
}

// The floats of the records that are copied, at the start of the array.
fn flatten<'a>(refs: &[Reference], flat: &'a mut [f32; 131072]) -> &'a [f32]
    ensures { result.now ≡ spec.flattened (take (spec.copied (length refs.now)) refs.now) }
{
    let m = copied(refs.len());
    gather(refs, m, flat);
    &flat[..8 * m]
}

// ---- the calls
// Slices: as the C interface lends them.

// Fits the model to references for a card of this side and version, and marks those that were kept: what `fit::fit_flat` gives of
// the same floats. Kept has a byte a reference. Scratch of 4 × references is all zero afterwards. The tails of both stay. Refused by
// 2, 5 (kept or scratch too short), 6, 7, 8 and 11; both are untouched then, save that 11 leaves scratch zero.
pub fn fit(
    refs: &[Reference],
    side: usize,
    version: u8,
    kept: &mut [u8],
    scratch: &mut [f32],
) -> Result<IlluminationModel, Refusal>
    ensures { fitting.final (model_said result) kept.new scratch.new ≡ fitting.fit_of (fitting.flat_request (spec.flattened refs.now) side version kept.old scratch.old) }
{
    let mut flat = [0.0f32; 131072];
    let floats = flatten(refs, &mut flat);
    fit::fit_counted(floats, refs.len(), side, version, kept, scratch)
}

// Measures the noise record from references, for a card of this side, corrected by the model, and counts those that have a mark:
// what `measure::measure_flat` gives of the same floats. Scratch of 4 × references is all zero afterwards, and its tail stays. Refused by 2, 3, 5 (the
// palette or scratch too short), 6, 7, 8, 10 and 12; scratch is untouched then.
// Twin: of `fit`: one over both would take the call as a closure, and no proof knows what that leaves in the slices it holds.
pub fn measure(
    refs: &[Reference],
    side: usize,
    model: IlluminationModel,
    palette: &[f32],
    hues: usize,
    scratch: &mut [f32],
) -> Result<Measurement, Refusal>
    ensures { measuring.final (said result) scratch.new ≡ measuring.measure_of (measuring.flat_request (spec.flattened refs.now) side model palette.now hues scratch.old) }
{
    let mut flat = [0.0f32; 131072];
    let floats = flatten(refs, &mut flat);
    measure::measure_counted(floats, refs.len(), side, model, palette, hues, scratch)
}
