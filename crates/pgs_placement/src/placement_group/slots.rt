//! Slots that scrubs claim and release.
ghost use Rattle.std.specs.Prelude.{◌≡◌, ◌&&◌, true, false, Some, find, IfOk, OnOk};
ghost use Rattle.pgs_history.specs.Legal.{IsDenial};
ghost use Rattle.pgs_history.specs.Parked.{is_admitting};
ghost use Rattle.pgs_history.specs.Scrubs.{IsBegun};
ghost use Rattle.pgs_slots.specs.Slots.{holders_of};
ghost use Rattle.pgs_slots.specs.declared.claim_answer.ClaimAnswer.TheVariants as claims;
ghost use Rattle.pgs_placement.specs.Scrubs as scrubs;
ghost use Rattle.pgs_placement.specs.Sound.{IsSound};

use super::PlacementGroup;
use crate::saying::{claim_said, holders_said};
use pgs_done::{ClaimAnswer, Done, ReleaseAnswer};
use pgs_group::Group;
use pgs_slots::{ClaimAnswer as SlotAnswer, Holder};
use sqlite_items::Items;
use std::alloc::AllocError;

fn both(a: bool, b: bool) -> bool
    ensures { result ≡ (a && b) }
{
    a && b
}

// Whether a scrub is one of the group that has ended.
fn is_over(group: &Group, holder: Holder) -> bool
    ensures { result ≡ scrubs.is_over group.now.made group.now.past holder }
{
    both(
        holder.group == group.made().number,
        group.is_over(holder.serial),
    )
}

// The first of those who hold slots that is a scrub of the group which has ended.
fn first_over(group: &Group, slots: &[Option<Holder>]) -> Option<Holder>
    ensures { result ≡ find (scrubs.is_over group.now.made group.now.past) (holders_of slots.now) }
{
    for slot in slots {
        if let Some(holder) = slot {
            if is_over(group, *holder) {
                return Some(*holder);
            }
        }
    }
    None
}

impl PlacementGroup {
    // No scrub of the group claims.
    fn claim_nothing(&mut self, group: u32) -> Result<bool, AllocError>
        ensures granted { IfOk result (λ b. b ≡ false) }
        ensures after { OnOk result (self.new ≡ scrubs.not_claiming self.old group) }
    {
        let answer = ClaimAnswer::NoClaim;
        self.done.push(Done::Claim { group, answer })?;
        Ok(false)
    }

    // The group learns that a scrub holds a slot of an OSD.
    fn grant(&mut self, group: u32, serial: u64, osd: u32, slot: u8) -> Result<bool, AllocError>
        requires idle { is_admitting self.old.past ≡ false }
        requires begun { IsBegun self.old.past serial }
        ensures granted { IfOk result (λ b. b ≡ true) }
        ensures after { OnOk result (self.new ≡ scrubs.claim_made (claims.Claimed slot) serial osd self.old group) }
    {
        self.done.reserve(1)?;
        let reserved = self.group.reserve(serial, osd, None)?;
        let answer = claim_said(osd, slot, &reserved);
        self.done.push_reserved(Done::Claim { group, answer });
        Ok(true)
    }

    // The group learns that these hold the slots of an OSD.
    fn deny(
        &mut self,
        group: u32,
        serial: u64,
        osd: u32,
        holders: Items<Holder>,
    ) -> Result<bool, AllocError>
        requires idle { is_admitting self.old.past ≡ false }
        requires begun { IsBegun self.old.past serial }
        requires denial { IsDenial (Some holders) }
        ensures granted { IfOk result (λ b. b ≡ false) }
        ensures after { OnOk result (self.new ≡ scrubs.claim_made (claims.Denied holders) serial osd self.old group) }
    {
        self.done.reserve(1)?;
        let told = holders_said(self.alloc, holders.as_slice())?;
        self.group.reserve(serial, osd, Some(holders))?;
        let answer = ClaimAnswer::Denied { osd, holders: told };
        self.done.push_reserved(Done::Claim { group, answer });
        Ok(false)
    }

    // A scrub claims a slot of an OSD.
    #[tactic(auto, using(crate::proofs::Opens::denial_of))]
    fn claim_at(&mut self, group: u32, serial: u64, osd: u32) -> Result<bool, AllocError>
        requires sound { IsSound self.old }
        requires begun { IsBegun self.old.past serial }
        ensures granted { IfOk result (λ b. b ≡ scrubs.grants_at (Some serial) (Some osd) self.old) }
        ensures after { OnOk result (self.new ≡ scrubs.claimed_at (Some serial) (Some osd) self.old group) }
    {
        let number = self.group.made().number;
        let holder = Holder {
            group: number,
            serial,
        };
        match self.slots.claim(self.alloc, osd, holder)? {
            SlotAnswer::Claimed { slot } => self.grant(group, serial, osd, slot),
            SlotAnswer::Denied { holders } => self.deny(group, serial, osd, holders),
            SlotAnswer::Unknown => self.claim_nothing(group),
        }
    }

    // The scrub that reserves claims a slot of the OSD at which it claims next. It answers whether it holds one now.
    #[tactic(auto, using(crate::proofs::Opens::present_of))]
    pub(super) fn claim(&mut self, group: u32) -> Result<bool, AllocError>
        requires sound { IsSound self.old }
        ensures granted { IfOk result (λ b. b ≡ scrubs.grants self.old) }
        ensures after { OnOk result (self.new ≡ scrubs.after_claiming self.old group) }
    {
        let Some(serial) = self.group.present() else {
            return self.claim_nothing(group);
        };
        let Some(osd) = self.group.claims_at() else {
            return self.claim_nothing(group);
        };
        self.claim_at(group, serial, osd)
    }

    // The scrub of the group that has ended and holds the lowest slot of an OSD.
    fn over_at(&self, osd: u32) -> Option<Holder>
        ensures { result ≡ scrubs.over_at self.now osd }
    {
        match self.slots.holders(osd) {
            Some(slots) => first_over(&self.group, slots),
            None => None,
        }
    }

    // The lowest slot of an OSD that such a scrub holds is free again.
    pub(super) fn release(&mut self, group: u32, osd: u32) -> Result<(), AllocError>
        ensures { OnOk result (self.new ≡ scrubs.after_releasing self.old group osd) }
    {
        self.done.reserve(1)?;
        let Some(holder) = self.over_at(osd) else {
            self.done.push_reserved(Done::Release {
                group,
                osd,
                answer: ReleaseAnswer::NotHeld,
            });
            return Ok(());
        };
        self.slots.release(osd, holder);
        self.done.push_reserved(Done::Release {
            group,
            osd,
            answer: ReleaseAnswer::Released {
                serial: holder.serial,
            },
        });
        Ok(())
    }
}
