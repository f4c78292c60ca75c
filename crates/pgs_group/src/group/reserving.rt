//! How a scrub of a group reserves, and what ended it.
ghost use Rattle.std.specs.Prelude.{◌≡◌, ◌+◌, false, length, Some, None, IfOk, OnOk, OnErr};
ghost use Rattle.pgs_history.specs.Acting.{acting};
ghost use Rattle.pgs_history.specs.Scrubs.{IsBegun, claims, claims_at};
ghost use Rattle.pgs_history.specs.Causes.{cause};
ghost use Rattle.pgs_history.specs.Answers.{following, unclaimed, reserve_answer};
ghost use Rattle.pgs_history.specs.After.{after_reserve};
ghost use Rattle.pgs_history.specs.Legal.{IsLegal, IsDenial};
ghost use Rattle.pgs_history.specs.Parked.{is_admitting};

use super::Group;
use crate::osds;
use pgs_history::{Cause, End, Event, ReserveAnswer};
use pgs_slots::Holder;
use sqlite_items::Items;
use std::alloc::AllocError;

impl Group {
    // The place of the next event.
    #[tactic(auto, using(crate::proofs::Places::next_place))]
    pub(super) fn place(&self) -> u64
        ensures { result ≡ length self.now.past + 1 }
    {
        self.events.as_slice().len() as u64 + 1
    }

    // What ended a scrub.
    pub(super) fn cause(&self, serial: u64) -> Result<Option<Cause>, AllocError>
        ensures { IfOk result (λ found. found ≡ cause self.now.made self.now.past serial) }
    {
        let place = serial.saturating_sub(1);
        match self.causes.get(place as usize) {
            Some(cause) => {
                let cause = cause.copied(self.alloc)?;
                Ok(Some(cause))
            }
            None => Ok(None),
        }
    }

    /// The OSD at which the scrub that reserves claims next.
    pub fn claims_at(&self) -> Option<u32>
        ensures { result ≡ claims_at self.now.made self.now.past }
    {
        match self.scrubs.claims() {
            Some(place) => Some(osds::at(self.acting(), place)),
            None => None,
        }
    }

    // The OSD at which it claims then, if one follows.
    fn following(&self) -> Option<u32>
        ensures { result ≡ following (acting self.now.made self.now.past) (claims self.now.past) }
    {
        match self.scrubs.claims() {
            Some(place) => osds::behind(self.acting(), place),
            None => None,
        }
    }

    // Why a scrub claims nothing at an OSD, if it doesn't.
    #[tactic(auto, unfolding(pgs_history::specs::Answers::unclaimed))]
    fn not_claimed(&self, serial: u64, osd: u32) -> Result<Option<ReserveAnswer>, AllocError>
        ensures { IfOk result (λ why. why ≡ unclaimed self.now.made self.now.past serial osd) }
    {
        if let Some(cause) = self.cause(serial)? {
            return Ok(Some(ReserveAnswer::Over { cause }));
        }
        let next = self.claims_at();
        if !osds::is(next, osd) {
            return Ok(Some(ReserveAnswer::NotNext { next }));
        }
        Ok(None)
    }

    // The scrub that reserves is denied a slot, and ends.
    fn deny(
        &mut self,
        serial: u64,
        osd: u32,
        holders: Items<Holder>,
    ) -> Result<ReserveAnswer, AllocError>
        requires claims { unclaimed self.old.made self.old.past serial osd ≡ None }
        ensures answer { IfOk result (λ a. a ≡ reserve_answer self.old.made self.old.past serial osd (Some holders)) }
        ensures kept { OnOk result (self.new ≡ record self.old { past = after_reserve self.old.made self.old.past serial osd (Some holders) }) }
        ensures err { OnErr result (self.new ≡ self.old) }
    {
        self.events.reserve(1)?;
        self.causes.reserve(1)?;
        let held = Items::from_slice(self.alloc, holders.as_slice())?;
        let place = self.place();
        let end = End::Denied { osd, holders: held };
        self.causes.push_reserved(Cause { place, end });
        self.scrubs.give_up();
        self.events.push_reserved(Event::Reserve {
            serial,
            osd,
            denied: Some(holders),
            answer: ReserveAnswer::DeniedNow { osd },
        });
        Ok(ReserveAnswer::DeniedNow { osd })
    }

    // The scrub that reserves has a slot. It claims at the next OSD, or runs.
    fn grant(&mut self, serial: u64, osd: u32) -> Result<ReserveAnswer, AllocError>
        requires claims { unclaimed self.old.made self.old.past serial osd ≡ None }
        ensures answer { IfOk result (λ a. a ≡ reserve_answer self.old.made self.old.past serial osd None) }
        ensures kept { OnOk result (self.new ≡ record self.old { past = after_reserve self.old.made self.old.past serial osd None }) }
        ensures err { OnErr result (self.new ≡ self.old) }
    {
        self.events.reserve(1)?;
        if let Some(next) = self.following() {
            self.scrubs.further();
            self.events.push_reserved(Event::Reserve {
                serial,
                osd,
                denied: None,
                answer: ReserveAnswer::Reserving { next },
            });
            return Ok(ReserveAnswer::Reserving { next });
        }
        self.scrubs.ready();
        self.events.push_reserved(Event::Reserve {
            serial,
            osd,
            denied: None,
            answer: ReserveAnswer::Reserved,
        });
        Ok(ReserveAnswer::Reserved)
    }

    // The scrub that reserves claims at the OSD that is next.
    fn claim(
        &mut self,
        serial: u64,
        osd: u32,
        denied: Option<Items<Holder>>,
    ) -> Result<ReserveAnswer, AllocError>
        requires claims { unclaimed self.old.made self.old.past serial osd ≡ None }
        ensures answer { IfOk result (λ a. a ≡ reserve_answer self.old.made self.old.past serial osd denied) }
        ensures kept { OnOk result (self.new ≡ record self.old { past = after_reserve self.old.made self.old.past serial osd denied }) }
        ensures err { OnErr result (self.new ≡ self.old) }
    {
        match denied {
            Some(holders) => self.deny(serial, osd, holders),
            None => self.grant(serial, osd),
        }
    }

    /// A scrub claims a slot of an OSD; where none was free, what the OSD's slots held is given. It claims at one acting OSD
    /// after another, runs after the last, and ends where a claim is denied.
    pub fn reserve(
        &mut self,
        serial: u64,
        osd: u32,
        denied: Option<Items<Holder>>,
    ) -> Result<ReserveAnswer, AllocError>
        requires idle { is_admitting self.old.past ≡ false }
        requires begun { IsBegun self.old.past serial }
        requires slots { IsDenial denied }
        ensures answer { IfOk result (λ a. a ≡ reserve_answer self.old.made self.old.past serial osd denied) }
        ensures kept { OnOk result (self.new ≡ record self.old { past = after_reserve self.old.made self.old.past serial osd denied }) }
        ensures err { OnErr result (self.new ≡ self.old) }
        ensures legal { IsLegal self.old.made self.old.past → IsLegal self.new.made self.new.past }
    {
        self.events.reserve(1)?;
        if let Some(answer) = self.not_claimed(serial, osd)? {
            let told = answer.copied(self.alloc)?;
            self.events.push_reserved(Event::Reserve {
                serial,
                osd,
                denied,
                answer,
            });
            return Ok(told);
        }
        self.claim(serial, osd, denied)
    }
}
