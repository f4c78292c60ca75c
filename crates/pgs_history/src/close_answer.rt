use pgs_compare::Report;
use pgs_request::ReqId;

/// What a chunk is answered that is to be closed.
#[derive(Drop)]
pub enum CloseAnswer {
    /// No chunk of this number was opened.
    NoChunk,
    /// It was closed already.
    ClosedBefore,
    /// It gave way to a write.
    Preempted {
        /// The write's request.
        request: ReqId,
    },
    /// A change of the acting list ended it.
    IntervalChanged {
        /// The epoch before.
        old: u32,
        /// The epoch then.
        new: u32,
    },
    /// A device failed, and that ended it.
    DeviceFault {
        /// Its OSD.
        osd: u32,
        /// How many calls of it had failed.
        count: u64,
    },
    /// An acting OSD's map is missing.
    NotYet {
        /// The first such OSD.
        osd: u32,
    },
    /// It is closed.
    Closed {
        /// What comparing the maps of the acting OSDs found.
        report: Report,
        /// Whether its scrub is complete with it.
        completes: bool,
    },
}
