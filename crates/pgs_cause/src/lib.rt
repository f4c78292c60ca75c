//! Counts of faults: what a failed call of the outside shows.
#![tactic(auto)]

ghost use Rattle.pgs_cause.specs.Count.{Rose, LAST_COUNT};
ghost use Rattle.std.specs.Prelude.{◌≡◌, ◌+◌, min};

/// A call of the outside failed. Its count of faults rose.
#[derive(Clone, Copy, Debug)]
pub struct Failed;

/// A count of faults after one fault more. It stays at its last value once it stands there.
pub fn raised(count: u64) -> u64
    ensures value { result ≡ min (count + 1) LAST_COUNT }
    ensures rose { Rose count result }
{
    count.saturating_add(1)
}
