use pgs_request::{Refusal, Version};

/// What a client is answered that asks what became of its write.
#[derive(Clone, Copy, Debug, PartialEq, Eq, Drop)]
pub enum CollectAnswer {
    /// The write waits.
    StillParked {
        /// The chunk that it waits for.
        chunk: u64,
    },
    /// The write waited, and made no effects then.
    Refused {
        /// Why.
        refusal: Refusal,
    },
    /// The write doesn't stand in the log.
    Unknown,
    /// It does, and an acting OSD has not told of it yet.
    NotYet {
        /// The first such OSD.
        osd: u32,
        /// The number up to which that OSD told.
        told: u64,
    },
    /// Every acting OSD has told of it.
    Acked {
        /// Its version.
        version: Version,
    },
}
