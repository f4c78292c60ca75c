ghost use Rattle.std.specs.Prelude.{◌≡◌, IfOk};

use crate::cause::Cause;
use std::alloc::{AllocError, Global};

/// What a scrub is answered that claims a slot of an OSD.
#[derive(Drop)]
pub enum ReserveAnswer {
    /// The scrub has ended.
    Over {
        /// By this.
        cause: Cause,
    },
    /// It doesn't claim at this OSD next.
    NotNext {
        /// The OSD at which it does. None where it runs.
        next: Option<u32>,
    },
    /// The OSD had no free slot, and the scrub ends.
    DeniedNow {
        /// The OSD.
        osd: u32,
    },
    /// It claims at a further OSD next.
    Reserving {
        /// That OSD.
        next: u32,
    },
    /// It was the last acting OSD, and the scrub runs.
    Reserved,
}

impl ReserveAnswer {
    /// The same once more.
    pub fn copied(&self, alloc: Global) -> Result<ReserveAnswer, AllocError>
        ensures { IfOk result (λ copy. copy ≡ self.now) }
    {
        match self {
            ReserveAnswer::Over { cause } => {
                let cause = cause.copied(alloc)?;
                Ok(ReserveAnswer::Over { cause })
            }
            ReserveAnswer::NotNext { next } => Ok(ReserveAnswer::NotNext { next: *next }),
            ReserveAnswer::DeniedNow { osd } => Ok(ReserveAnswer::DeniedNow { osd: *osd }),
            ReserveAnswer::Reserving { next } => Ok(ReserveAnswer::Reserving { next: *next }),
            ReserveAnswer::Reserved => Ok(ReserveAnswer::Reserved),
        }
    }
}
