ghost use Rattle.std.specs.Prelude.{◌≡◌, IfOk};

use crate::snap_errors::SnapErrors;
use pgs_name::ObjectId;
use sqlite_items::Items;
use std::alloc::{AllocError, Global};

/// What is wrong with a head or a clone among the snapshots of its object.
#[derive(Drop)]
pub struct SnapFinding {
    pub id: ObjectId,
    pub errors: SnapErrors,
    /// The snaps of the clones that a head's snapset lists and that aren't there, ascending.
    pub missing: Items<u64>,
    /// The snaps of the clones that are there and that a head's snapset doesn't list, ascending.
    pub extra: Items<u64>,
}

impl SnapFinding {
    /// The same finding. It isn't `Clone`, whose call is passed no allocator, and a list has none to show.
    pub fn copied(&self, alloc: Global) -> Result<SnapFinding, AllocError>
        ensures { IfOk result (λ finding. finding ≡ self.now) }
    {
        let id = self.id.clone()?;
        let missing = Items::from_slice(alloc, self.missing.as_slice())?;
        let extra = Items::from_slice(alloc, self.extra.as_slice())?;
        Ok(SnapFinding {
            id,
            errors: self.errors,
            missing,
            extra,
        })
    }
}
