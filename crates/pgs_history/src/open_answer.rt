ghost use Rattle.std.specs.Prelude.{◌≡◌, IfOk};

use crate::cause::Cause;
use crate::chunk::Chunk;
use std::alloc::{AllocError, Global};

/// What a chunk is answered that is to be opened.
#[derive(Drop)]
pub enum OpenAnswer {
    /// The scrub has ended.
    Over {
        /// By this.
        cause: Cause,
    },
    /// The scrub reserves.
    StillReserving {
        /// The OSD at which it claims next.
        osd: u32,
    },
    /// A chunk is open.
    Already {
        /// Its number.
        chunk: u64,
    },
    /// It was opened.
    Opened {
        /// The chunk.
        chunk: Chunk,
    },
}

impl OpenAnswer {
    /// The same once more.
    pub fn copied(&self, alloc: Global) -> Result<OpenAnswer, AllocError>
        ensures { IfOk result (λ copy. copy ≡ self.now) }
    {
        match self {
            OpenAnswer::Over { cause } => {
                let cause = cause.copied(alloc)?;
                Ok(OpenAnswer::Over { cause })
            }
            OpenAnswer::StillReserving { osd } => Ok(OpenAnswer::StillReserving { osd: *osd }),
            OpenAnswer::Already { chunk } => Ok(OpenAnswer::Already { chunk: *chunk }),
            OpenAnswer::Opened { chunk } => {
                let chunk = chunk.clone()?;
                Ok(OpenAnswer::Opened { chunk })
            }
        }
    }
}
