use pgs_request::{Refusal, Version};

/// What a client is answered that asks for a request's outcome.
#[derive(Clone, Copy, Debug, PartialEq, Eq, Drop)]
pub enum CollectAnswer {
    /// The request's write waits until the open chunk is closed.
    StillParked {
        /// The number of that chunk.
        chunk: u64,
    },
    /// The write waited, was then refused, and wasn't sent again.
    Refused {
        /// Why.
        refusal: Refusal,
    },
    /// The request doesn't stand in the log.
    Unknown,
    /// It does, and an acting OSD has not told of it yet.
    NotYet {
        /// The first such OSD.
        osd: u32,
        /// The number up to which that OSD told.
        told: u64,
    },
    /// Every acting OSD has told of it.
    Acked {
        /// Its version.
        version: Version,
    },
}
