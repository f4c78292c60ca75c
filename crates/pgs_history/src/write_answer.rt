ghost use Rattle.std.specs.Prelude.{◌≡◌};

use pgs_range::FamilyRange;
use pgs_request::{Declined, Version};
use std::alloc::AllocError;

/// What a write is answered.
#[derive(Drop)]
pub enum WriteAnswer {
    /// It was not appended.
    Declined {
        /// Why.
        declined: Declined,
    },
    /// It waits until the open chunk is closed.
    Parked {
        /// The families of that chunk.
        range: FamilyRange,
    },
    /// It would wait, and no more may.
    QueueFull {
        /// How many do.
        count: u64,
    },
    /// It was appended to the log.
    Accepted {
        /// Its version.
        version: Version,
        /// The number of the chunk that was open and gave way to it.
        preempts: Option<u64>,
    },
}

impl Clone for WriteAnswer {
    ghost is_clone = { λ a b. b ≡ a };

    fn clone(&self) -> Result<WriteAnswer, AllocError> {
        match self {
            WriteAnswer::Declined { declined } => Ok(WriteAnswer::Declined {
                declined: *declined,
            }),
            WriteAnswer::Parked { range } => {
                let range = range.clone()?;
                Ok(WriteAnswer::Parked { range })
            }
            WriteAnswer::QueueFull { count } => Ok(WriteAnswer::QueueFull { count: *count }),
            WriteAnswer::Accepted { version, preempts } => Ok(WriteAnswer::Accepted {
                version: *version,
                preempts: *preempts,
            }),
        }
    }
}
