use crate::range::Range;

/// What a scrub is answered that asks for its next chunk.
#[derive(Drop)]
pub enum OpenAnswer {
    /// A chunk was opened.
    Opened {
        /// The number of the chunk.
        chunk: u64,
        /// What it covers.
        range: Range,
        /// The number of the last item of the log that touches it.
        version: u64,
        /// How many positions it may have, where it has more than one family.
        limit: u32,
        /// Whether no write may drop the chunk.
        firm: bool,
    },
    /// A chunk is open.
    Already {
        /// The number of that chunk.
        chunk: u64,
    },
    /// No scrub of the group goes on.
    NoScrub,
    /// The scrub still claims slots.
    Reserving {
        /// The OSD that comes next.
        osd: u32,
    },
    /// The device of the primary failed.
    DeviceFault {
        /// The primary.
        osd: u32,
        /// The device's count of faults.
        count: u64,
    },
}
