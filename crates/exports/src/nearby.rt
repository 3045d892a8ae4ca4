// Which of the kept references stand near a module.
//
// Twin: the C interface has a function for each call, and a call that hands on as many arguments has the same shape.
ghost use Rattle.std.specs.Prelude.{◌≡◌};
ghost use Rattle.near.specs.Near as near_call;
ghost use Rattle.near.specs.declared.Query.TheVariants as query;
ghost use Rattle.exports.specs.Exits as exits;

use super::replies::NumberAnswer;
use near::Query;

// Lists the three kept references nearest to the module at (x, y), all where fewer are kept, the nearest first and of equal distances
// the earlier one: their places among the references, from 0, at the front of `out`, whose rest stays. The value is how many. Two
// floats and a byte a reference, 0 for one that was not kept. Refused: 2, 5, 6, 7; `out` is untouched then.
#[unsafe(no_mangle)]
pub extern "C" fn purdolve_nearest(
    xy: &[f32],
    kept: &[u8],
    side: usize,
    x: i32,
    y: i32,
    out: &mut [u32],
) -> NumberAnswer
    ensures { exits.exit1 result out.new ≡ exits.near_exit (near_call.near_of (near_call.request xy.now kept.now side x y query.Nearest out.old)) }
{
    NumberAnswer::from(near::near(xy, kept, side, x, y, Query::Nearest, out))
}

// Lists the kept references within a radius of the module's centre, as `purdolve_nearest` lists the nearest. Refused: 2, 5, 6, 7, 15;
// `out` is untouched then.
#[unsafe(no_mangle)]
pub extern "C" fn purdolve_within(
    xy: &[f32],
    kept: &[u8],
    side: usize,
    x: i32,
    y: i32,
    radius: f32,
    out: &mut [u32],
) -> NumberAnswer
    ensures { exits.exit1 result out.new ≡ exits.near_exit (near_call.near_of (near_call.request xy.now kept.now side x y (query.Within radius) out.old)) }
{
    NumberAnswer::from(near::near(xy, kept, side, x, y, Query::Within(radius), out))
}

// Lists the kept references that a column cuts off from the module, as `purdolve_nearest` lists the nearest. Refused: 2, 5, 6, 7; `out`
// is untouched then.
#[unsafe(no_mangle)]
pub extern "C" fn purdolve_cut_off(
    xy: &[f32],
    kept: &[u8],
    side: usize,
    x: i32,
    y: i32,
    column: i32,
    out: &mut [u32],
) -> NumberAnswer
    ensures { exits.exit1 result out.new ≡ exits.near_exit (near_call.near_of (near_call.request xy.now kept.now side x y (query.CutOff column) out.old)) }
{
    NumberAnswer::from(near::near(xy, kept, side, x, y, Query::CutOff(column), out))
}
