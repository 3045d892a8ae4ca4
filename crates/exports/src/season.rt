// Totals over a season's cards.
//
// Twin: the C interface has a function for each call, and a call that hands on as many arguments has the same shape.
ghost use Rattle.std.specs.Prelude.{◌≡◌, []};
ghost use Rattle.totals.specs.Batch.{of_cards};
ghost use Rattle.totals.specs.Calls as totals_call;
ghost use Rattle.totals.specs.LowestTerms.{mean_of};
ghost use Rattle.exports.specs.Replies as spec;

use super::replies::{RatioAnswer, TotalsAnswer};
use totals::Totals;

// The totals of no card, all zero.
#[unsafe(no_mangle)]
pub extern "C" fn purdolve_empty_totals() -> Totals
    ensures { result ≡ of_cards [] }
{
    totals::empty_totals()
}

// A card added to totals, by its refined luma scores, one a module. Refused: 6, 18, 19.
#[unsafe(no_mangle)]
pub extern "C" fn purdolve_add_card(t: Totals, luma: &[f32]) -> TotalsAnswer
    ensures { result ≡ spec.totals_answer (totals_call.add_card_of t luma.now) }
{
    TotalsAnswer::from(totals::add_card(t, luma))
}

// The totals of two batches added. Refused: 18.
#[unsafe(no_mangle)]
pub extern "C" fn purdolve_add_totals(a: Totals, b: Totals) -> TotalsAnswer
    ensures { result ≡ spec.totals_answer (totals_call.add_totals_of a b) }
{
    TotalsAnswer::from(totals::add_totals(a, b))
}

// The mean magnitude in 65,536ths, as two whole numbers without common factor; 0 over 1 with no modules. Refused: 18.
#[unsafe(no_mangle)]
pub extern "C" fn purdolve_mean(t: Totals) -> RatioAnswer
    ensures { result ≡ spec.ratio_answer (mean_of t) }
{
    RatioAnswer::from(totals::mean(t))
}
