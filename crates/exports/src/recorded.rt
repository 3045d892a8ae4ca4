// The illumination model and the noise record from references as records.
//
// Twin: the C interface has a function for each call, and a call that hands on as many arguments has the same shape.
// Slices: the C interface lends them so, each a pointer and a length.
ghost use Rattle.std.specs.Prelude.{◌≡◌};
ghost use Rattle.fit.specs.Fit as fit_call;
ghost use Rattle.measure.specs.Measure as measure_call;
ghost use Rattle.records.specs.Records as records_call;
ghost use Rattle.exports.specs.Exits as exits;

use super::replies::{MeasureAnswer, ModelAnswer};
use illum::IlluminationModel;
use records::Reference;

// Fits the model to references as records, and marks those that were kept: what `purdolve_fit_flat` gives of the same floats, eight
// a record. Takes 512 KB of stack for a copy of them. Refused: 2, 5, 6, 7, 8, 11; kept and scratch are untouched then, save that 11
// leaves scratch zero.
#[tactic(auto, unfolding(crate::specs::Exits::fit_exit))]
#[unsafe(no_mangle)]
pub extern "C" fn purdolve_fit(
    refs: &[Reference],
    side: usize,
    version: u8,
    kept: &mut [u8],
    scratch: &mut [f32],
) -> ModelAnswer
    ensures { exits.exit2 result kept.new scratch.new ≡ exits.fit_exit (fit_call.fit_of (fit_call.flat_request (records_call.flattened refs.now) side version kept.old scratch.old)) }
{
    ModelAnswer::from(records::fit(refs, side, version, kept, scratch))
}

// Measures the noise record from references as records, corrected by the model, and counts those that have a mark: what
// `purdolve_measure_flat` gives of the same floats. Takes 512 KB of stack for a copy of them. Refused: 2, 3, 5, 6, 7, 8, 10, 12; scratch is untouched then.
#[tactic(auto, unfolding(crate::specs::Exits::measure_exit))]
#[unsafe(no_mangle)]
pub extern "C" fn purdolve_measure(
    refs: &[Reference],
    side: usize,
    model: IlluminationModel,
    palette: &[f32],
    hues: usize,
    scratch: &mut [f32],
) -> MeasureAnswer
    ensures { exits.exit1 result scratch.new ≡ exits.measure_exit (measure_call.measure_of (measure_call.flat_request (records_call.flattened refs.now) side model palette.now hues scratch.old)) }
{
    MeasureAnswer::from(records::measure(refs, side, model, palette, hues, scratch))
}
