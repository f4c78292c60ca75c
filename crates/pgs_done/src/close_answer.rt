/// What a scrub is answered whose last chunk is to be closed.
#[derive(Clone, Copy, Debug, PartialEq, Eq, Drop)]
pub enum CloseAnswer {
    /// The chunk was closed.
    Closed {
        /// The number of the chunk.
        chunk: u64,
        /// How many objects have findings.
        findings: u64,
        /// How many objects have findings about their clones.
        snaps: u64,
        /// Whether it ends at the highest bound, so that the scrub is complete.
        completes: bool,
    },
    /// A member's map of the chunk isn't there yet.
    NotYet {
        /// The first acting OSD without a map.
        osd: u32,
    },
    /// The chunk was closed before.
    ClosedBefore {
        /// The number of the chunk.
        chunk: u64,
    },
    /// The group opened no chunk yet.
    NoChunk,
    /// A write took the place of the chunk.
    Preempted {
        /// The client that wrote.
        client: u32,
        /// The client's number for the write.
        serial: u32,
    },
    /// The acting members changed, which ended the scrub.
    IntervalChanged {
        /// The epoch in which the scrub began.
        old: u32,
        /// The epoch that ended it.
        new: u32,
    },
    /// The device of a member failed, which ended the scrub.
    DeviceFault {
        /// The OSD.
        osd: u32,
        /// The device's count of faults.
        count: u64,
    },
}
