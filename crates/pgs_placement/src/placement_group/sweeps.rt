//! A whole scrub, as the list of its single steps.
ghost use Rattle.std.specs.Prelude.{◌≡◌, ◌≤◌, true, length, take, IfOk, OnOk};
ghost use Rattle.pgs_history.specs.Acting.{acting};
ghost use Rattle.pgs_shards.specs.Scans.{scan_in};
ghost use Rattle.pgs_placement.specs.Counts.{is_member};
ghost use Rattle.pgs_placement.specs.Repeats.{MOST};
ghost use Rattle.pgs_placement.specs.Scrubs.{is_going};
ghost use Rattle.pgs_placement.specs.Sweeps as sweeps;
ghost use Rattle.pgs_placement.specs.Sound.{IsSound};

use super::PlacementGroup;
use crate::scans::{goes_on, is_early, most};
use pgs_history::BeginAnswer;
use pgs_lines::Kind;
use sqlite_items::Items;
use std::alloc::AllocError;

impl PlacementGroup {
    // A step of a member's scan, behind which it applies an item where the scan needs one. It answers whether the scan goes on.
    fn scan_on(&mut self, group: u32, osd: u32) -> Result<bool, AllocError>
        ensures goes { IfOk result (λ b. b ≡ sweeps.goes_on (scan_in self.old.stride self.old.members osd)) }
        ensures after { OnOk result (self.new ≡ sweeps.scanned_on self.old group osd) }
    {
        let answer = self.scan(group, osd)?;
        let goes = goes_on(&answer);
        if is_early(&answer) {
            self.apply(group, osd)?;
            return Ok(goes);
        }
        Ok(goes)
    }

    // Step after step until the scan is done.
    #[tactic(auto, using(crate::proofs::Sweeps::scanning))]
    fn scan_out(&mut self, group: u32, osd: u32) -> Result<(), AllocError>
        ensures { OnOk result (self.new ≡ sweeps.scanned_out MOST self.old group osd) }
    {
        let most = most();
        for _ in 0..most {
            if !self.scan_on(group, osd)? {
                return Ok(());
            }
        }
        Ok(())
    }

    // A member pulls, scans the chunk, and hands its map.
    #[tactic(auto, using(crate::proofs::Sweeps::out_is_member))]
    fn scrub_member(&mut self, group: u32, osd: u32) -> Result<(), AllocError>
        requires sound { IsSound self.old }
        requires member { is_member self.old.made osd ≡ true }
        ensures { OnOk result (self.new ≡ sweeps.member_scrubbed self.old group osd) }
    {
        self.pull(group, osd)?;
        self.scan_out(group, osd)?;
        self.take(group, osd)?;
        self.admit_all()
    }

    // The OSDs that act.
    fn acting(&self) -> Result<Items<u32>, AllocError>
        ensures { IfOk result (λ osds. osds ≡ acting self.now.made self.now.past) }
    {
        Items::from_slice(self.alloc, self.group.acting())
    }

    // Each acting OSD does so, until the scrub has ended.
    #[tactic(auto, using(crate::proofs::Sweeps::members))]
    fn scrub_members(&mut self, group: u32) -> Result<(), AllocError>
        requires sound { IsSound self.old }
        ensures { OnOk result (self.new ≡ sweeps.all_scrubbed self.old group (acting self.old.made self.old.past)) }
    {
        let osds = self.acting()?;
        for osd in osds.as_slice() {
            if !self.is_going() {
                return Ok(());
            }
            self.scrub_member(group, *osd)?;
        }
        Ok(())
    }

    // The chunk is closed, unless the scrub has ended.
    fn close_if(&mut self, group: u32) -> Result<(), AllocError>
        requires sound { IsSound self.old }
        ensures { OnOk result (self.new ≡ sweeps.closed_if self.old group) }
    {
        if !self.is_going() {
            return Ok(());
        }
        self.close(group)?;
        self.admit_all()?;
        Ok(())
    }

    // Each acting OSD gives its map of the open chunk, and it is closed, unless the scrub has ended.
    fn scan_if(&mut self, group: u32) -> Result<(), AllocError>
        requires sound { IsSound self.old }
        ensures { OnOk result (self.new ≡ sweeps.scanned_if self.old group) }
    {
        if !self.is_going() {
            return Ok(());
        }
        self.scrub_members(group)?;
        self.close_if(group)?;
        Ok(())
    }

    // A chunk is opened, scanned and closed. It answers whether the scrub goes on.
    fn scrub_chunk(&mut self, group: u32) -> Result<bool, AllocError>
        requires sound { IsSound self.old }
        ensures after { OnOk result (self.new ≡ sweeps.chunk_done self.old group) }
        ensures going { IfOk result (λ b. b ≡ is_going self.new) }
    {
        self.open(group)?;
        self.admit_all()?;
        self.scan_if(group)?;
        Ok(self.is_going())
    }

    // Chunk after chunk until the scrub has ended.
    #[tactic(auto, using(crate::proofs::Sweeps::walking))]
    fn walk(&mut self, group: u32) -> Result<(), AllocError>
        requires sound { IsSound self.old }
        ensures { OnOk result (self.new ≡ sweeps.walked MOST self.old group) }
    {
        let most = most();
        for _ in 0..most {
            if !self.scrub_chunk(group)? {
                return Ok(());
            }
        }
        Ok(())
    }

    // The same, if the scrub runs.
    fn walk_if(&mut self, group: u32) -> Result<(), AllocError>
        requires sound { IsSound self.old }
        ensures { OnOk result (self.new ≡ sweeps.walked_if self.old group) }
    {
        if !self.is_going() {
            return Ok(());
        }
        self.walk(group)
    }

    // Slots of these OSDs are claimed, until a claim isn't granted. It answers how many were.
    #[tactic(auto, using(crate::proofs::Sweeps::claiming_begins))]
    fn claim_all(&mut self, group: u32, osds: &[u32]) -> Result<usize, AllocError>
        requires sound { IsSound self.old }
        ensures granted { IfOk result (λ n. n ≡ sweeps.granted self.old group osds.now) }
        ensures after { OnOk result (self.new ≡ sweeps.claimed_all self.old group osds.now) }
    {
        for place in 0..osds.len() {
            if !self.claim(group)? {
                return Ok(place);
            }
        }
        Ok(osds.len())
    }

    // A slot of each of the first so many OSDs is released.
    #[tactic(auto, using(crate::proofs::Sweeps::releasing))]
    fn release_all(&mut self, group: u32, osds: &[u32]) -> Result<(), AllocError>
        ensures { OnOk result (self.new ≡ sweeps.released_all self.old group osds.now) }
    {
        for osd in osds {
            self.release(group, *osd)?;
        }
        Ok(())
    }

    // Slots of these OSDs are claimed, chunk after chunk is scrubbed, and the slots are released.
    fn scrub_at(&mut self, group: u32, osds: &[u32]) -> Result<(), AllocError>
        requires sound { IsSound self.old }
        ensures { OnOk result (self.new ≡ sweeps.scrubbed_at self.old group osds.now) }
    {
        let granted = self.claim_all(group, osds)?;
        self.walk_if(group)?;
        self.release_all(group, first(osds, granted))?;
        Ok(())
    }

    // The scrub that began goes on until it has ended.
    fn scrub(&mut self, group: u32) -> Result<(), AllocError>
        requires sound { IsSound self.old }
        ensures { OnOk result (self.new ≡ sweeps.scrubbed_at self.old group (acting self.old.made self.old.past)) }
    {
        let osds = self.acting()?;
        self.scrub_at(group, osds.as_slice())
    }

    /// A scrub begins, unless one reserves or runs, and goes on until it has ended.
    #[tactic(auto, using(crate::proofs::Sweeps::sweeping))]
    pub(super) fn sweep(&mut self, group: u32, kind: Kind) -> Result<(), AllocError>
        requires sound { IsSound self.old }
        ensures { OnOk result (self.new ≡ sweeps.swept self.old group kind) }
    {
        match self.begin_scrub(group, kind)? {
            BeginAnswer::Busy { .. } => Ok(()),
            BeginAnswer::Began { .. } => self.scrub(group),
        }
    }
}

// The first so many of these, or all where there are fewer.
fn first(osds: &[u32], count: usize) -> &[u32]
    ensures { result.now ≡ take count osds.now }
{
    match osds.get(..count) {
        Some(front) => front,
        None => osds,
    }
}
