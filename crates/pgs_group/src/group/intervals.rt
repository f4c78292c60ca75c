//! What ends the scrub of a group from outside: a device that failed, and other members that act.
ghost use Rattle.std.specs.Prelude.{◌≡◌, true, false, Some, None, IfOk, OnOk, OnErr};
ghost use Rattle.pgs_history.specs.Acting.{IsActing};
ghost use Rattle.pgs_history.specs.Scrubs.{IsBegun};
ghost use Rattle.pgs_history.specs.Answers.{is_stale, fault_answer, lagging, unchanged, interval_answer};
ghost use Rattle.pgs_history.specs.After.{after_fault, after_interval};
ghost use Rattle.pgs_history.specs.Legal.{IsLegal};
ghost use Rattle.pgs_history.specs.Parked.{is_admitting};

use super::Group;
use crate::acting::Acting;
use crate::noting::{note_cause, note_fate};
use crate::osds::first_lagging;
use pgs_history::{Cause, End, Event, Fate, FaultAnswer, IntervalAnswer};
use sqlite_items::Items;
use std::alloc::AllocError;

impl Group {
    // Whether a fault is that of a scrub that has ended, or of a chunk that isn't open.
    fn is_stale(&self, serial: u64, chunk: u64) -> bool
        ensures { result ≡ is_stale self.now.made self.now.past serial chunk }
    {
        if self.is_over(serial) {
            return true;
        }
        if chunk == 0 {
            return false;
        }
        !self.scrubs.is_open(chunk)
    }

    // The scrub that reserves or runs ends by a fault.
    fn fail(
        &mut self,
        serial: u64,
        chunk: u64,
        osd: u32,
        count: u64,
    ) -> Result<FaultAnswer, AllocError>
        requires { is_stale self.old.made self.old.past serial chunk ≡ false }
        ensures answer { IfOk result (λ a. a ≡ fault_answer self.old.made self.old.past serial chunk) }
        ensures kept { OnOk result (self.new ≡ record self.old { past = after_fault self.old.made self.old.past serial chunk osd count }) }
        ensures err { OnErr result (self.new ≡ self.old) }
    {
        self.events.reserve(1)?;
        self.causes.reserve(1)?;
        self.fates.reserve(1)?;
        let place = self.place();
        let end = End::DeviceFault { osd, count };
        self.causes.push_reserved(Cause { place, end });
        let fate = Fate::DeviceFault { osd, count };
        note_fate(&mut self.fates, &self.scrubs.open_chunk, fate);
        self.scrubs.stop();
        let answer = FaultAnswer::Ended;
        self.events.push_reserved(Event::Fault {
            serial,
            chunk,
            osd,
            count,
            answer,
        });
        Ok(answer)
    }

    /// A device failed a call for a scrub: of a chunk's scan, or of a listing, where the chunk is 0. The scrub ends, unless it
    /// has ended or that chunk isn't open.
    pub fn fault(
        &mut self,
        serial: u64,
        chunk: u64,
        osd: u32,
        count: u64,
    ) -> Result<FaultAnswer, AllocError>
        requires idle { is_admitting self.old.past ≡ false }
        requires begun { IsBegun self.old.past serial }
        ensures answer { IfOk result (λ a. a ≡ fault_answer self.old.made self.old.past serial chunk) }
        ensures kept { OnOk result (self.new ≡ record self.old { past = after_fault self.old.made self.old.past serial chunk osd count }) }
        ensures err { OnErr result (self.new ≡ self.old) }
        ensures legal { IsLegal self.old.made self.old.past → IsLegal self.new.made self.new.past }
    {
        if !self.is_stale(serial, chunk) {
            return self.fail(serial, chunk, osd, count);
        }
        self.events.reserve(1)?;
        let chunk_now = self.scrubs.open_number();
        let answer = FaultAnswer::Stale { chunk_now };
        self.events.push_reserved(Event::Fault {
            serial,
            chunk,
            osd,
            count,
            answer,
        });
        Ok(answer)
    }

    // The first OSD of a new list that isn't caught up.
    #[tactic(auto, using(crate::proofs::Finds::lagging_is))]
    fn lagging(&self, osds: &[u32]) -> Option<u32>
        ensures { result ≡ lagging self.now.made self.now.past osds.now }
    {
        first_lagging(osds, self.acting(), &self.told, self.log.len())
    }

    // Why the acting list stays, if it does.
    #[tactic(auto, unfolding(pgs_history::specs::Answers::unchanged))]
    fn unchanged(&self, osds: &[u32]) -> Option<IntervalAnswer>
        ensures { result ≡ unchanged self.now.made self.now.past osds.now }
    {
        let epoch = self.acting.epoch;
        if epoch == u32::MAX {
            return Some(IntervalAnswer::LastEpoch { epoch });
        }
        if let Some(osd) = self.lagging(osds) {
            return Some(IntervalAnswer::NotCaughtUp {
                osd,
                told: self.told.get(osd),
                length: self.log.len(),
            });
        }
        None
    }

    // Other members act from now on, and the scrub that reserves or runs ends.
    fn change(&mut self, acting: Items<u32>) -> Result<IntervalAnswer, AllocError>
        requires { unchanged self.old.made self.old.past acting ≡ None }
        ensures answer { IfOk result (λ a. a ≡ interval_answer self.old.made self.old.past acting) }
        ensures kept { OnOk result (self.new ≡ record self.old { past = after_interval self.old.made self.old.past acting }) }
        ensures err { OnErr result (self.new ≡ self.old) }
    {
        self.events.reserve(1)?;
        self.causes.reserve(1)?;
        self.fates.reserve(1)?;
        let osds = Items::from_slice(self.alloc, acting.as_slice())?;
        let place = self.place();
        let ends = self.scrubs.present();
        let old = self.acting.epoch;
        let new = old + 1;
        let end = End::IntervalChanged { old, new };
        note_cause(&mut self.causes, ends, Cause { place, end });
        let fate = Fate::IntervalChanged { old, new };
        note_fate(&mut self.fates, &self.scrubs.open_chunk, fate);
        self.scrubs.stop();
        self.acting = Acting {
            epoch: new,
            osds: Some(osds),
        };
        let answer = IntervalAnswer::Changed { epoch: new, ends };
        self.events
            .push_reserved(Event::Interval { acting, answer });
        Ok(answer)
    }

    /// Other members are to act, the first as the primary. Those that didn't act before have told of all the log. With the
    /// change a new epoch begins, and a scrub that reserves or runs ends.
    pub fn interval(&mut self, acting: Items<u32>) -> Result<IntervalAnswer, AllocError>
        requires idle { is_admitting self.old.past ≡ false }
        requires members { IsActing self.old.made acting }
        ensures answer { IfOk result (λ a. a ≡ interval_answer self.old.made self.old.past acting) }
        ensures kept { OnOk result (self.new ≡ record self.old { past = after_interval self.old.made self.old.past acting }) }
        ensures err { OnErr result (self.new ≡ self.old) }
        ensures legal { IsLegal self.old.made self.old.past → IsLegal self.new.made self.new.past }
    {
        let Some(answer) = self.unchanged(acting.as_slice()) else {
            return self.change(acting);
        };
        self.events.reserve(1)?;
        self.events
            .push_reserved(Event::Interval { acting, answer });
        Ok(answer)
    }
}
