ghost use Rattle.std.specs.Prelude.{◌≡◌, [], ◌++◌, OnOk, OnErr};
ghost use Rattle.pgs_find.specs.declared.snap_finding.SnapFinding.{SnapFinding};
ghost use Rattle.pgs_incons.specs.Found.{Ascends, AreWithin, finding_id, snap_id, replaced, IsReplaced};
ghost use Rattle.pgs_incons.specs.Kept.{Kept, kept_after};

use crate::cut::Cut;
use crate::finding::Finding;
use crate::moving::{in_vec, move_into};
use crate::within::{found_within, snaps_within};
use pgs_find::SnapFinding;
use pgs_range::FamilyRange;
use sqlite_items::Items;
use std::alloc::{AllocError, Global};
use std::marker::Model;

/// What scrubs found, by position.
#[derive(Drop)]
pub struct Findings {
    found: Vec<Finding>,
    snaps: Vec<SnapFinding>,
}

impl Model for Findings {
    ghost use Rattle.pgs_incons.specs.Kept.{Kept, AreOrdered};

    ghost Value = { Kept };

    ghost view = { λ f. record { found = f.found.items; snaps = f.snaps.items } };

    ghost invariant = { λ f. AreOrdered f.found.items f.snaps.items };
}

impl Findings {
    /// Nothing found.
    pub fn new(alloc: Global) -> Findings
        ensures { result ≡ record { found = []; snaps = [] } }
    {
        Findings {
            found: Vec::new(alloc),
            snaps: Vec::new(alloc),
        }
    }

    /// What was found of copies, by position.
    pub fn list(&self) -> &[Finding]
        ensures found { result.now ≡ self.now.found }
        ensures ascends { Ascends finding_id result.now }
    {
        self.found.as_slice()
    }

    /// What was found of snapshots, by position.
    pub fn list_snaps(&self) -> &[SnapFinding]
        ensures found { result.now ≡ self.now.snaps }
        ensures ascends { Ascends snap_id result.now }
    {
        self.snaps.as_slice()
    }

    /// Keeps what was found of the families of a range in the place of all that was found of them before. What was found of others isn't
    /// kept.
    #[tactic(auto, using(crate::proofs::Turns::kept))]
    pub fn keep(
        &mut self,
        range: &FamilyRange,
        found: &[Finding],
        snaps: &[SnapFinding],
    ) -> Result<(), AllocError>
        requires found_ascend { Ascends finding_id found.now }
        requires snaps_ascend { Ascends snap_id snaps.now }
        ensures ok { OnOk result (self.new ≡ kept_after range.now found.now snaps.now self.old) }
        ensures err { OnErr result (self.new ≡ self.old) }
    {
        let alloc = *self.found.allocator();
        let found = found_within(alloc, range, found)?;
        let snaps = snaps_within(alloc, range, snaps)?;
        self.replace(range, found, snaps)
    }

    /// Puts what was found of the families of a range into the place of all that was found of them before. What stays is moved,
    /// and not copied.
    pub fn replace(
        &mut self,
        range: &FamilyRange,
        found: Items<Finding>,
        snaps: Items<SnapFinding>,
    ) -> Result<(), AllocError>
        requires found_ascend { Ascends finding_id found }
        requires found_within { AreWithin finding_id range.now found }
        requires snaps_ascend { Ascends snap_id snaps }
        requires snaps_within { AreWithin snap_id range.now snaps }
        ensures ok { OnOk result (self.new ≡ record { found = replaced finding_id range.now found self.old.found; snaps = replaced snap_id range.now snaps self.old.snaps }) }
        ensures err { OnErr result (self.new ≡ self.old) }

        // In words of the range alone.
        ensures found { OnOk result (IsReplaced finding_id range.now found self.old.found self.new.found) }
        ensures snaps { OnOk result (IsReplaced snap_id range.now snaps self.old.snaps self.new.snaps) }
    {
        let alloc = *self.found.allocator();
        let found = in_vec(alloc, found)?;
        let snaps = in_vec(alloc, snaps)?;
        let found_cut = Cut::of_findings(range, self.found.as_slice());
        let snaps_cut = Cut::of_snaps(range, self.snaps.as_slice());
        append_both(&mut self.found, found, &mut self.snaps, snaps)?;
        move_into(&mut self.found, found_cut);
        move_into(&mut self.snaps, snaps_cut);
        Ok(())
    }
}

// Puts both kinds behind those that are there, or none of them.
fn append_both(
    found: &mut Vec<Finding>,
    more_found: Vec<Finding>,
    snaps: &mut Vec<SnapFinding>,
    more_snaps: Vec<SnapFinding>,
) -> Result<(), AllocError>
    ensures ok { OnOk result ((found.new.items ≡ found.old.items ++ more_found.items) × (snaps.new.items ≡ snaps.old.items ++ more_snaps.items)) }
    ensures err { OnErr result ((found.new.items ≡ found.old.items) × (snaps.new.items ≡ snaps.old.items)) }
{
    let mut more_found = more_found;
    let mut more_snaps = more_snaps;
    let had = found.len();
    found.append(&mut more_found)?;
    if snaps.append(&mut more_snaps).is_err() {
        found.truncate(had);
        return Err(AllocError);
    }
    Ok(())
}
