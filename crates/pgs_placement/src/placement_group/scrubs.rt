//! The steps of a scrub.
ghost use Rattle.std.specs.Prelude.{◌≡◌, ◌∷◌, [], false, true, Some, IfOk, IfSome, OnOk};
ghost use Rattle.pgs_chunk.specs.Positions.{Ascends};
ghost use Rattle.pgs_done.specs.declared.done.Done.TheVariants as dones;
ghost use Rattle.pgs_done.specs.declared.open_answer.OpenAnswer.TheVariants as line_opens;
ghost use Rattle.pgs_done.specs.declared.take_answer.TakeAnswer.TheVariants.{NotDone};
ghost use Rattle.pgs_history.specs.Scrubs.{IsBegun, present, start, limit_now};
ghost use Rattle.pgs_history.specs.Answers.{begin_answer};
ghost use Rattle.pgs_history.specs.After.{after_fault};
ghost use Rattle.pgs_history.specs.Parked.{is_admitting};
ghost use Rattle.pgs_shard.specs.Scans.{IsHandedInRange};
ghost use Rattle.pgs_shards.specs.Scans.{hand_in, with_handed};
ghost use Rattle.pgs_placement.specs.Counts.{is_member};
ghost use Rattle.pgs_placement.specs.Scrubs as scrubs;
ghost use Rattle.pgs_placement.specs.Sound.{IsSound};

use super::PlacementGroup;
use crate::naming::kind_of;
use crate::saying::{begin_said, close_said, fault_said, open_said, take_said};
use pgs_done::{Done, OpenAnswer, TakeAnswer};
use pgs_exchange::{Found, ScanResult, open_whole};
use pgs_group::NextChunk;
use pgs_history::BeginAnswer;
use pgs_lines::Kind;
use pgs_name::ObjectId;
use pgs_range::Bound;
use pgs_shards::ListAnswer;
use sqlite_items::Items;
use std::alloc::AllocError;

// That an OSD had no map.
fn not_done(group: u32, osd: u32) -> Done
    ensures { result ≡ dones.Take group osd NotDone }
{
    let answer = TakeAnswer::NotDone;
    Done::Take { group, osd, answer }
}

impl PlacementGroup {
    // A scrub begins, unless one reserves or runs.
    pub(super) fn begin_scrub(&mut self, group: u32, kind: Kind) -> Result<BeginAnswer, AllocError>
        requires idle { is_admitting self.old.past ≡ false }
        ensures answer { IfOk result (λ a. a ≡ begin_answer self.old.made self.old.past) }
        ensures after { OnOk result (self.new ≡ scrubs.after_beginning self.old group kind) }
    {
        self.done.reserve(1)?;
        let answer = self.group.begin(kind_of(kind))?;
        self.done.push_reserved(Done::Begin {
            group,
            kind,
            answer: begin_said(answer),
        });
        Ok(answer)
    }

    // The group is given positions for the next chunk.
    fn open_with(&mut self, group: u32, serial: u64, ids: Items<ObjectId>) -> Result<(), AllocError>
        requires idle { is_admitting self.old.past ≡ false }
        requires begun { IsBegun self.old.past serial }
        requires ascends { Ascends ids }
        ensures { OnOk result (self.new ≡ scrubs.opened_with ids serial self.old group) }
    {
        self.done.reserve(1)?;
        let opened = self.group.open(serial, ids)?;
        let answer = open_said(self.alloc, &opened)?;
        self.done.push_reserved(Done::Open { group, answer });
        Ok(())
    }

    // The primary's device failed, and the scrub ends.
    fn open_failed(
        &mut self,
        group: u32,
        serial: u64,
        osd: u32,
        count: u64,
    ) -> Result<(), AllocError>
        requires idle { is_admitting self.old.past ≡ false }
        requires begun { IsBegun self.old.past serial }
        ensures { OnOk result (self.new ≡ record self.old { past = after_fault self.old.made self.old.past serial 0 osd count; done = dones.Open group (line_opens.DeviceFault osd count) ∷ self.old.done }) }
    {
        self.done.reserve(1)?;
        self.group.fault(serial, 0, osd, count)?;
        self.done.push_reserved(Done::Open {
            group,
            answer: OpenAnswer::DeviceFault { osd, count },
        });
        Ok(())
    }

    // The primary lists its positions, and a chunk is opened by them.
    #[tactic(auto, using(crate::proofs::Opens::listed_ascends))]
    fn open_listed(
        &mut self,
        group: u32,
        serial: u64,
        primary: u32,
        from: &Bound,
        limit: u32,
    ) -> Result<(), AllocError>
        requires sound { IsSound self.old }
        requires begun { IsBegun self.old.past serial }
        requires primary { primary ≡ scrubs.primary_of self.old }
        requires from { from.now ≡ start self.old.past }
        requires limit { limit ≡ limit_now self.old.made self.old.past }
        ensures { OnOk result (self.new ≡ scrubs.opened_by (scrubs.primary_lists self.old) serial self.old group) }
    {
        match self.shards.list(primary, from, limit)? {
            ListAnswer::Listed { ids } => self.open_with(group, serial, ids),
            ListAnswer::Fault { count } => self.open_failed(group, serial, primary, count),
        }
    }

    // A chunk of a scrub is to be opened: the primary lists its positions for one that can be.
    #[tactic(auto, using(crate::proofs::Opens::some_primary, crate::proofs::Opens::unlisted, crate::proofs::Opens::listed, crate::proofs::Opens::primary_is, pgs_chunk::proofs::Members::none_ascend))]
    fn open_of(&mut self, group: u32, serial: u64) -> Result<(), AllocError>
        requires sound { IsSound self.old }
        requires present { present self.old.past ≡ Some serial }
        requires begun { IsBegun self.old.past serial }
        ensures { OnOk result (self.new ≡ scrubs.opening_of (Some serial) self.old group) }
    {
        match self.group.next_chunk(serial)? {
            NextChunk::Over { .. } | NextChunk::StillReserving { .. } | NextChunk::Already { .. } =>
                {
                    let none = Items::new(self.alloc);
                    self.open_with(group, serial, none)
                }
            NextChunk::Next {
                primary,
                start,
                limit,
            } => self.open_listed(group, serial, primary, &start, limit),
        }
    }

    // A chunk is to be opened, if a scrub reserves or runs.
    #[tactic(auto, using(crate::proofs::Opens::present_of))]
    pub(super) fn open(&mut self, group: u32) -> Result<(), AllocError>
        requires sound { IsSound self.old }
        ensures { OnOk result (self.new ≡ scrubs.after_opening self.old group) }
    {
        match self.group.present() {
            Some(serial) => self.open_of(group, serial),
            None => {
                let answer = OpenAnswer::NoScrub;
                self.keep(Done::Open { group, answer })
            }
        }
    }

    // A member hands what its scan ended with, and the group takes the map or learns of the fault. Where memory runs out it may be lost.
    #[tactic(auto, using(crate::proofs::Takes::of_chunk, crate::proofs::Takes::fault_begun, crate::proofs::Takes::none_taken))]
    pub(super) fn take(&mut self, group: u32, osd: u32) -> Result<(), AllocError>
        requires sound { IsSound self.old }
        requires member { is_member self.old.made osd ≡ true }
        ensures { OnOk result (self.new ≡ scrubs.after_taking self.old group osd) }
    {
        let handed = self.hand(osd)?;
        let Some(scanned) = handed else {
            return self.keep(not_done(group, osd));
        };
        let ScanResult {
            serial,
            chunk,
            applied,
            place,
            found,
            ..
        } = scanned;
        match found {
            Found::Map { map } => {
                let taken = self.group.take(place, map)?;
                let answer = take_said(applied, place, taken);
                self.keep(Done::Take { group, osd, answer })
            }
            Found::ListFault { count } => {
                let ended = self.group.fault(serial, chunk, osd, count)?;
                let answer = fault_said(count, ended);
                self.keep(Done::Take { group, osd, answer })
            }
        }
    }

    // What a member's scan ended with, if it ended with something, decoded. Where memory runs out it is lost.
    #[tactic(auto, using(pgs_exchange::proofs::Whole::whole_of, pgs_exchange::proofs::Whole::told_is))]
    fn hand(&mut self, osd: u32) -> Result<Option<ScanResult>, AllocError>
        ensures handed { IfOk result (λ told. told ≡ hand_in self.old.members osd) }
        ensures kept { OnOk result (self.new ≡ record self.old { members = with_handed osd self.old.members }) }
        ensures in_range { IfOk result (λ told. IfSome told IsHandedInRange) }
    {
        let Some(deposit) = self.shards.hand(osd) else {
            return Ok(None);
        };
        let told = open_whole(self.alloc, deposit)?;
        Ok(Some(told))
    }

    // Something was done.
    fn keep(&mut self, done: Done) -> Result<(), AllocError>
        ensures { OnOk result (self.new ≡ record self.old { done = done ∷ self.old.done }) }
    {
        self.done.push(done)?;
        Ok(())
    }

    // The chunk that was opened last is closed.
    pub(super) fn close(&mut self, group: u32) -> Result<(), AllocError>
        requires idle { is_admitting self.old.past ≡ false }
        ensures { OnOk result (self.new ≡ scrubs.after_closing self.old group) }
    {
        self.done.reserve(1)?;
        let chunk = self.group.last_chunk();
        let told = self.group.close(chunk)?;
        self.done.push_reserved(Done::Close {
            group,
            answer: close_said(chunk, told),
        });
        Ok(())
    }

    // Whether a scrub of the group runs.
    pub(super) fn is_going(&self) -> bool
        ensures { result ≡ scrubs.is_going self.now }
    {
        self.group.running().is_some()
    }
}
