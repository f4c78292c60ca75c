//! What was found of the families of a range.
ghost use Rattle.std.specs.Prelude.{◌≡◌, IfOk};
ghost use Rattle.pgs_incons.specs.Found.{finding_id, snap_id, of_range};

use crate::finding::Finding;
use pgs_find::SnapFinding;
use pgs_range::FamilyRange;
use sqlite_items::Items;
use std::alloc::{AllocError, Global};

/// Those of some findings of copies.
#[tactic(auto, using(crate::proofs::Turns::found_turns))]
pub fn found_within(
    alloc: Global,
    range: &FamilyRange,
    found: &[Finding],
) -> Result<Items<Finding>, AllocError>
    ensures { IfOk result (λ within. within ≡ of_range finding_id range.now found.now) }
{
    let mut within = Items::new(alloc);
    for finding in found {
        if range.in_range(&finding.id.family) {
            let copy = finding.copied(alloc)?;
            within.push(copy)?;
        }
    }
    Ok(within)
}

/// Those of some findings of snapshots.
#[tactic(auto, using(crate::proofs::Turns::snaps_turns))]
pub fn snaps_within(
    alloc: Global,
    range: &FamilyRange,
    snaps: &[SnapFinding],
) -> Result<Items<SnapFinding>, AllocError>
    ensures { IfOk result (λ within. within ≡ of_range snap_id range.now snaps.now) }
{
    let mut within = Items::new(alloc);
    for snap in snaps {
        if range.in_range(&snap.id.family) {
            let copy = snap.copied(alloc)?;
            within.push(copy)?;
        }
    }
    Ok(within)
}
