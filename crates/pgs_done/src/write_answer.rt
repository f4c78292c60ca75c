use crate::range::Range;
use pgs_request::{Declined, Version};

/// What a write is answered.
#[derive(Drop)]
pub enum WriteAnswer {
    /// It was not appended to the log.
    Declined {
        /// Why.
        declined: Declined,
    },
    /// It waits until the chunk that covers its object is closed.
    Parked {
        /// What the chunk covers.
        range: Range,
    },
    /// As many writes wait as may.
    QueueFull {
        /// How many wait.
        count: u64,
    },
    /// It was appended to the log.
    Accepted {
        /// Its version.
        version: Version,
        /// The chunk that it took the place of.
        preempts: Option<u64>,
    },
}
