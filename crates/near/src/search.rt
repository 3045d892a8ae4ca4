// What is searched, as a struct with its facts; it stands apart so that specs/Seen can say what comes before what in it.
ghost use Rattle.std.specs.Prelude.{◌*◌, ◌≤◌, length};
ghost use Rattle.near.specs.Order as order;
ghost use Rattle.near.specs.Near as spec;

use crate::Query;

// What is searched: n references, their positions and marks, as they are seen from the centre (cx, cy). Which of two
// references comes before the other is a strict order of them. (Its methods take it by value: behind a reference the sort
// would read its fields at every step.)
// Facts: that a reference or a listed place is below n, or a place of the list within it, is asked of an argument,
// which has no struct; and `out` is the caller's slice, whose rest stays: a struct of it, with the fact that it has n
// places, would have one field.
#[derive(Clone, Copy, Debug)]
pub struct Search<'a> {
    pub query: Query,
    pub xy: &'a [f32],
    pub kept: &'a [u8],
    pub n: usize,
    pub cx: f64,
    pub cy: f64,
    ghost placed: { 2 * n ≤ length xy.now },
    ghost marked: { n ≤ length kept.now },
    ghost few: { n ≤ 16384 },
    ghost strict: { order.Strict (spec.before xy.now cx cy) n },
}
