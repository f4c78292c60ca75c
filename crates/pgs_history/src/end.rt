ghost use Rattle.std.specs.Prelude.{◌≡◌, IfOk};

use pgs_slots::Holder;
use sqlite_items::Items;
use std::alloc::{AllocError, Global};

/// How a scrub ended.
#[derive(Drop)]
pub enum End {
    /// Its last chunk was closed.
    Completed {
        /// The number of that chunk.
        chunk: u64,
    },
    /// An acting OSD had no free slot for it.
    Denied {
        /// The OSD.
        osd: u32,
        /// What its slots held.
        holders: Items<Holder>,
    },
    /// The acting list changed.
    IntervalChanged {
        /// The epoch before.
        old: u32,
        /// The epoch then.
        new: u32,
    },
    /// A device failed.
    DeviceFault {
        /// Its OSD.
        osd: u32,
        /// How many calls of it had failed.
        count: u64,
    },
}

impl End {
    /// The same once more.
    pub fn copied(&self, alloc: Global) -> Result<End, AllocError>
        ensures { IfOk result (λ copy. copy ≡ self.now) }
    {
        match self {
            End::Completed { chunk } => Ok(End::Completed { chunk: *chunk }),
            End::Denied { osd, holders } => {
                let holders = Items::from_slice(alloc, holders.as_slice())?;
                Ok(End::Denied { osd: *osd, holders })
            }
            End::IntervalChanged { old, new } => Ok(End::IntervalChanged {
                old: *old,
                new: *new,
            }),
            End::DeviceFault { osd, count } => Ok(End::DeviceFault {
                osd: *osd,
                count: *count,
            }),
        }
    }
}
