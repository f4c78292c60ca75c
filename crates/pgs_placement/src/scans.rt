//! What is done after an answer.
ghost use Rattle.std.specs.Prelude.{◌≡◌};
ghost use Rattle.pgs_placement.specs.Repeats as repeats;
ghost use Rattle.pgs_placement.specs.Steps as steps;
ghost use Rattle.pgs_placement.specs.Sweeps as sweeps;

use pgs_shard::ScanAnswer;
use pgs_shards::ApplyAnswer;

/// Whether a scan goes on after an answer.
pub fn goes_on(answer: &ScanAnswer) -> bool
    ensures { result ≡ sweeps.goes_on answer.now }
{
    match answer {
        ScanAnswer::Idle | ScanAnswer::Done | ScanAnswer::ListFault { .. } => false,
        ScanAnswer::NotYet { .. }
        | ScanAnswer::Found { .. }
        | ScanAnswer::More
        | ScanAnswer::Passed { .. } => true,
    }
}

/// Whether a scan needs an item that isn't applied.
pub fn is_early(answer: &ScanAnswer) -> bool
    ensures { result ≡ sweeps.is_early answer.now }
{
    matches!(answer, ScanAnswer::NotYet { .. })
}

/// Whether applying goes on after an answer.
pub fn is_waiting(answer: ApplyAnswer) -> bool
    ensures { result ≡ steps.is_waiting answer }
{
    match answer {
        ApplyAnswer::NotYet { .. } => false,
        ApplyAnswer::Applied { .. } | ApplyAnswer::DeviceFault { .. } => true,
    }
}

/// How many steps of one kind are made in a row at most.
#[tactic(auto, unfolding(crate::specs::Repeats::MOST))]
pub fn most() -> u64
    ensures { result ≡ repeats.MOST }
{
    u64::MAX
}
