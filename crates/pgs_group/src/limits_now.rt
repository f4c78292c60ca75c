ghost use Rattle.std.specs.Prelude.{◌≡◌};
ghost use Rattle.pgs_chunk.specs.Limits as defined;

use pgs_chunk::{Limits, limit_after};

/// How many positions a chunk may have after so many preemptions of its scrub.
#[tactic(auto, using(crate::proofs::Used::no_halves))]
pub fn limit_of(limits: Limits, used: u64) -> u32
    ensures { result ≡ defined.limit_after limits used }
{
    if used < 32 {
        return limit_after(&limits, used as u32);
    }
    limits.chunk_min
}
