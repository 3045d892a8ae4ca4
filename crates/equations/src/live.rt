// Which references are live: a mark for each, 1 while it is live and 0 once it is rejected.
ghost use Rattle.std.specs.Prelude.{◌≡◌, ◌≤◌, length};
ghost use Rattle.equations.specs.Live as spec;

// Core: whether a mark is that of a live reference.
#[tactic(auto, unfolding(crate::specs::Live::is_live_mark), using(crate::proofs::Marks::literals))]
pub fn is_live(mark: f32) -> bool
    ensures { result ≡ spec.is_live_mark mark }
{
    mark == 1.0
}

// Core: how many marks are those of live references.
// Twin: of `order::count_of`, which counts in u32 what a closure lets pass, in at most 4,096 values.
pub fn live_count(live: &[f32]) -> usize
    ensures { (result ≡ spec.live_count live.now (length live.now)) × (result ≤ length live.now) }
{
    let mut k = 0;
    for &mark in live {
        k += usize::from(is_live(mark));
    }
    k
}
