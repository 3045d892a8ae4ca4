// Linear systems and order statistics.
//
// Twin: the C interface has a function for each call, and a call that hands on as many arguments has the same shape.
// Slices: the C interface lends them so, each a pointer and a length.
ghost use Rattle.std.specs.Prelude.{◌≡◌};
ghost use Rattle.math.specs.Gauss as gauss;
ghost use Rattle.math.specs.Normal as normal;
ghost use Rattle.order.specs.Deviation as deviations;
ghost use Rattle.order.specs.Median as middle;
ghost use Rattle.exports.specs.Exits as exits;

use super::replies::{FloatAnswer, SolveAnswer};

// Solves the n by n system a x = b, and writes the solution to x. No solution leaves x untouched. Either way a and b are left as
// elimination leaves them. Refused: 5, 6.
#[tactic(auto, unfolding(crate::specs::Exits::solve_exit))]
#[unsafe(no_mangle)]
pub extern "C" fn purdolve_solve(
    a: &mut [f64],
    b: &mut [f64],
    x: &mut [f64],
    n: usize,
) -> SolveAnswer
    ensures { exits.exit3 result a.new b.new x.new ≡ exits.solve_exit (gauss.solve_of n a.old b.old x.old) }
{
    SolveAnswer::from(math::solve(a, b, x, n))
}

// The median of the values, which are left in another order.
#[unsafe(no_mangle)]
pub extern "C" fn purdolve_median(values: &mut [f32]) -> f32
    ensures { middle.ordered result values.new ≡ middle.ordered_of values.old }
{
    order::median(values)
}

// Adds one row of `terms` numbers and its target to the normal equations, whose matrix has room for 324 numbers and is used up to
// terms * terms. Answers document 01's number. Refused: 5, 6; nothing is written then.
#[tactic(auto, unfolding(crate::specs::Exits::add_row_exit))]
#[unsafe(no_mangle)]
pub extern "C" fn purdolve_add_row(
    ata: &mut [f64; 324],
    atb: &mut [f64],
    row: &[f64],
    target: f64,
    terms: usize,
) -> u32
    ensures { exits.exit2 result ata.new atb.new ≡ exits.add_row_exit (normal.add_row_of terms row.now target (gauss.system ata.old atb.old)) }
{
    answers::outcome_number(math::add_row(ata, atb, row, target, terms))
}

// Finishes the normal equations: 1e-9 on the diagonal, then as `purdolve_solve`. Refused: 5, 6; nothing is written then.
#[tactic(auto, unfolding(crate::specs::Exits::solve_exit))]
#[unsafe(no_mangle)]
pub extern "C" fn purdolve_finish(
    ata: &mut [f64; 324],
    atb: &mut [f64],
    x: &mut [f64],
    terms: usize,
) -> SolveAnswer
    ensures { exits.exit3 result ata.new atb.new x.new ≡ exits.solve_exit (normal.finish_of terms (gauss.system ata.old atb.old) x.old) }
{
    SolveAnswer::from(math::finish(ata, atb, x, terms))
}

// Fits x so that each row of `terms` numbers, times x, comes nearest its target in the sum of squares. Refused: 5, 6; x is
// untouched but where there is a solution.
#[tactic(auto, unfolding(crate::specs::Exits::fitted_exit))]
#[unsafe(no_mangle)]
pub extern "C" fn purdolve_least_squares(
    rows: &[f64],
    targets: &[f64],
    terms: usize,
    x: &mut [f64],
) -> SolveAnswer
    ensures { exits.exit1 result x.new ≡ exits.fitted_exit (normal.least_squares_of terms rows.now targets.now x.old) }
{
    SolveAnswer::from(math::least_squares(rows, targets, terms, x))
}

// The median absolute deviation of the values, scaled to estimate a standard deviation. The first 2 * values of scratch are zero
// afterwards. Refused: 5; nothing is written then.
#[tactic(auto, unfolding(crate::specs::Exits::sigma_exit))]
#[unsafe(no_mangle)]
pub extern "C" fn purdolve_mad_sigma(values: &[f32], scratch: &mut [f32]) -> FloatAnswer
    ensures { exits.exit1 result scratch.new ≡ exits.sigma_exit (deviations.mad_sigma_of values.now scratch.old) }
{
    FloatAnswer::from(order::mad_sigma(values, scratch))
}
