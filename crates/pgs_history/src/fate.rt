use pgs_request::ReqId;

/// What ended a chunk.
#[derive(Clone, Copy, Debug, PartialEq, Eq, Drop)]
pub enum Fate {
    /// Its close.
    Closed,
    /// A write that it gave way to.
    Preempted {
        /// The write's request.
        request: ReqId,
    },
    /// A change of the acting list.
    IntervalChanged {
        /// The epoch before.
        old: u32,
        /// The epoch then.
        new: u32,
    },
    /// A device that failed.
    DeviceFault {
        /// Its OSD.
        osd: u32,
        /// How many calls of it had failed.
        count: u64,
    },
}
