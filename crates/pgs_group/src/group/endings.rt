//! What becomes of a client's write, by what it comes to.
ghost use Rattle.std.specs.Prelude.{◌≡◌, ◌<◌, true, false, Some, None, length, IfOk, OnOk, OnErr};
ghost use Rattle.pgs_gate.specs.Waits.{is_parked};
ghost use Rattle.pgs_gate.specs.declared.limits.TheConstants.{MOST_PARKED};
ghost use Rattle.pgs_history.specs.Parked.{parked, is_admitting};
ghost use Rattle.pgs_history.specs.Answers.{submit_answer, preempted};
ghost use Rattle.pgs_history.specs.After.{after_submit};
ghost use Rattle.pgs_history.specs.declared.write_answer.WriteAnswer.TheVariants as answers;
ghost use Rattle.pgs_group.specs.Weighed.{IsWaiting, IsMaking};

use super::Group;
use crate::accepting::accept;
use crate::copying::copy_of;
use crate::refusals::forget;
use pgs_copy::Effect;
use pgs_gate::MOST_PARKED;
use pgs_history::{Event, Fate, WriteAnswer};
use pgs_op::Write;
use pgs_range::FamilyRange;
use pgs_request::Declined;
use sqlite_items::Items;
use std::alloc::AllocError;

impl Group {
    /// A write is declined.
    pub(super) fn decline(
        &mut self,
        write: Write,
        declined: Declined,
    ) -> Result<WriteAnswer, AllocError>
        requires { submit_answer self.old.made self.old.past write ≡ answers.Declined declined }
        ensures answer { IfOk result (λ a. a ≡ submit_answer self.old.made self.old.past write) }
        ensures kept { OnOk result (self.new ≡ record self.old { past = after_submit self.old.made self.old.past write }) }
        ensures err { OnErr result (self.new ≡ self.old) }
    {
        if self.events.reserve(1).is_err() {
            drop(write);
            return Err(AllocError);
        }
        forget(&mut self.refused, write.id);
        let answer = WriteAnswer::Declined { declined };
        self.events.push_reserved(Event::Submit { write, answer });
        Ok(WriteAnswer::Declined { declined })
    }

    /// A write would wait, and no more may.
    pub(super) fn turn_away(&mut self, write: Write) -> Result<WriteAnswer, AllocError>
        requires { submit_answer self.old.made self.old.past write ≡ answers.QueueFull MOST_PARKED }
        ensures answer { IfOk result (λ a. a ≡ submit_answer self.old.made self.old.past write) }
        ensures kept { OnOk result (self.new ≡ record self.old { past = after_submit self.old.made self.old.past write }) }
        ensures err { OnErr result (self.new ≡ self.old) }
    {
        if self.events.reserve(1).is_err() {
            drop(write);
            return Err(AllocError);
        }
        let count = MOST_PARKED as u64;
        forget(&mut self.refused, write.id);
        let answer = WriteAnswer::QueueFull { count };
        self.events.push_reserved(Event::Submit { write, answer });
        Ok(WriteAnswer::QueueFull { count })
    }

    /// A write waits already.
    #[tactic(auto, using(crate::proofs::Parking::same_parked))]
    pub(super) fn park_again(
        &mut self,
        write: Write,
        range: FamilyRange,
    ) -> Result<WriteAnswer, AllocError>
        requires parked { submit_answer self.old.made self.old.past write ≡ answers.Parked range }
        requires again { is_parked (parked self.old.past) write.id ≡ true }
        ensures answer { IfOk result (λ a. a ≡ submit_answer self.old.made self.old.past write) }
        ensures kept { OnOk result (self.new ≡ record self.old { past = after_submit self.old.made self.old.past write }) }
        ensures err { OnErr result (self.new ≡ self.old) }
    {
        let Ok(answered) = range.clone() else {
            drop(write);
            return Err(AllocError);
        };
        if self.events.reserve(1).is_err() {
            drop(write);
            return Err(AllocError);
        }
        forget(&mut self.refused, write.id);
        let answer = WriteAnswer::Parked { range };
        self.events.push_reserved(Event::Submit { write, answer });
        Ok(WriteAnswer::Parked { range: answered })
    }

    /// A write waits from now on.
    #[tactic(auto, using(crate::proofs::Parking::one_parked, crate::proofs::Parking::still_new))]
    pub(super) fn park(
        &mut self,
        write: Write,
        range: FamilyRange,
    ) -> Result<WriteAnswer, AllocError>
        requires waiting { IsWaiting self.old.made self.old.past write range }
        ensures answer { IfOk result (λ a. a ≡ submit_answer self.old.made self.old.past write) }
        ensures kept { OnOk result (self.new ≡ record self.old { past = after_submit self.old.made self.old.past write }) }
        ensures err { OnErr result (self.new ≡ self.old) }
    {
        let Ok(answered) = range.clone() else {
            drop(write);
            return Err(AllocError);
        };
        let Ok(copy) = copy_of(&write) else {
            drop(write);
            return Err(AllocError);
        };
        if self.events.reserve(1).is_err() {
            drop(write);
            drop(copy);
            return Err(AllocError);
        }
        if self.waiting.park(copy).is_err() {
            drop(write);
            return Err(AllocError);
        }
        forget(&mut self.refused, write.id);
        let answer = WriteAnswer::Parked { range };
        self.events.push_reserved(Event::Submit { write, answer });
        Ok(WriteAnswer::Parked { range: answered })
    }

    /// A write is appended to the log. The open chunk gives way to it where it must.
    pub(super) fn append(
        &mut self,
        write: Write,
        effects: Items<(u64, Effect)>,
    ) -> Result<WriteAnswer, AllocError>
        requires idle { is_admitting self.old.past ≡ false }
        requires making { IsMaking self.old.made self.old.past write effects }
        ensures answer { IfOk result (λ a. a ≡ submit_answer self.old.made self.old.past write) }
        ensures kept { OnOk result (self.new ≡ record self.old { past = after_submit self.old.made self.old.past write }) }
        ensures err { OnErr result (self.new ≡ self.old) }
    {
        match self.scrubs.giving_way(&write.family) {
            Some(chunk) => self.append_over(write, effects, chunk),
            None => self.append_beside(write, effects),
        }
    }

    // A write to which no chunk gives way is appended.
    fn append_beside(
        &mut self,
        write: Write,
        effects: Items<(u64, Effect)>,
    ) -> Result<WriteAnswer, AllocError>
        requires idle { is_admitting self.old.past ≡ false }
        requires making { IsMaking self.old.made self.old.past write effects }
        requires beside { preempted self.old.past write ≡ None }
        ensures answer { IfOk result (λ a. a ≡ submit_answer self.old.made self.old.past write) }
        ensures kept { OnOk result (self.new ≡ record self.old { past = after_submit self.old.made self.old.past write }) }
        ensures err { OnErr result (self.new ≡ self.old) }
    {
        if self.events.reserve(1).is_err() {
            drop(write);
            return Err(AllocError);
        }
        let version = self.next_version();
        let (log, clean) = (&mut self.log, &mut self.clean);
        if accept(self.alloc, log, clean, version, &write, effects).is_err() {
            drop(write);
            return Err(AllocError);
        }
        forget(&mut self.refused, write.id);
        let preempts = None;
        let answer = WriteAnswer::Accepted { version, preempts };
        self.events.push_reserved(Event::Submit { write, answer });
        Ok(WriteAnswer::Accepted { version, preempts })
    }

    // A write to which the open chunk gives way is appended.
    fn append_over(
        &mut self,
        write: Write,
        effects: Items<(u64, Effect)>,
        chunk: u64,
    ) -> Result<WriteAnswer, AllocError>
        requires idle { is_admitting self.old.past ≡ false }
        requires making { IsMaking self.old.made self.old.past write effects }
        requires over { preempted self.old.past write ≡ Some chunk }
        ensures answer { IfOk result (λ a. a ≡ submit_answer self.old.made self.old.past write) }
        ensures kept { OnOk result (self.new ≡ record self.old { past = after_submit self.old.made self.old.past write }) }
        ensures err { OnErr result (self.new ≡ self.old) }
    {
        if self.events.reserve(1).is_err() || self.fates.reserve(1).is_err() {
            drop(write);
            return Err(AllocError);
        }
        let version = self.next_version();
        let (log, clean) = (&mut self.log, &mut self.clean);
        if accept(self.alloc, log, clean, version, &write, effects).is_err() {
            drop(write);
            return Err(AllocError);
        }
        forget(&mut self.refused, write.id);
        let request = write.id;
        self.fates.push_reserved(Fate::Preempted { request });
        self.scrubs.give_way();
        let preempts = Some(chunk);
        let answer = WriteAnswer::Accepted { version, preempts };
        self.events.push_reserved(Event::Submit { write, answer });
        Ok(WriteAnswer::Accepted { version, preempts })
    }
}
