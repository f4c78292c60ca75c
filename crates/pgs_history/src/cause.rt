ghost use Rattle.std.specs.Prelude.{◌≡◌, IfOk};

use crate::end::End;
use std::alloc::{AllocError, Global};

/// The event that ended a scrub.
#[derive(Drop)]
pub struct Cause {
    /// How many events the group had with it.
    pub place: u64,
    /// How it ended the scrub.
    pub end: End,
}

impl Cause {
    /// The same once more.
    pub fn copied(&self, alloc: Global) -> Result<Cause, AllocError>
        ensures { IfOk result (λ copy. copy ≡ self.now) }
    {
        let end = self.end.copied(alloc)?;
        Ok(Cause {
            place: self.place,
            end,
        })
    }
}
