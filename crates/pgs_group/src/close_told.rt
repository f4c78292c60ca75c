ghost use Rattle.std.specs.Prelude.{◌≡◌};
ghost use Rattle.pgs_group.specs.Steps.{close_told};

use pgs_history::CloseAnswer;
use pgs_request::ReqId;

/// What a caller is told that closes a chunk. What was found stands in the event that is kept.
#[derive(Clone, Copy, Debug, PartialEq, Drop)]
pub enum CloseTold {
    /// No chunk of this number was opened.
    NoChunk,
    /// It was closed already.
    ClosedBefore,
    /// It gave way to a write.
    Preempted {
        /// The write's request.
        request: ReqId,
    },
    /// A change of the acting list ended it.
    IntervalChanged {
        /// The epoch before.
        old: u32,
        /// The epoch then.
        new: u32,
    },
    /// A device failed, and that ended it.
    DeviceFault {
        /// Its OSD.
        osd: u32,
        /// How many calls of it had failed.
        count: u64,
    },
    /// An acting OSD's map is missing.
    NotYet {
        /// The first such OSD.
        osd: u32,
    },
    /// It is closed.
    Closed {
        /// How many positions of its range have a finding on their copies.
        findings: u64,
        /// How many have one on their snapshots.
        snaps: u64,
        /// Whether its scrub is complete with it.
        completes: bool,
    },
}

/// What is told of an answer.
pub fn told_of(answer: &CloseAnswer) -> CloseTold
    ensures { result ≡ close_told answer.now }
{
    match answer {
        CloseAnswer::NoChunk => CloseTold::NoChunk,
        CloseAnswer::ClosedBefore => CloseTold::ClosedBefore,
        CloseAnswer::Preempted { request } => CloseTold::Preempted { request: *request },
        CloseAnswer::IntervalChanged { old, new } => CloseTold::IntervalChanged {
            old: *old,
            new: *new,
        },
        CloseAnswer::DeviceFault { osd, count } => CloseTold::DeviceFault {
            osd: *osd,
            count: *count,
        },
        CloseAnswer::NotYet { osd } => CloseTold::NotYet { osd: *osd },
        CloseAnswer::Closed { report, completes } => CloseTold::Closed {
            findings: report.found.len() as u64,
            snaps: report.snaps.len() as u64,
            completes: *completes,
        },
    }
}
