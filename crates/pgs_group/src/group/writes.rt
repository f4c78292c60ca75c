//! How a group answers a client's write.
ghost use Rattle.std.specs.Prelude.{◌≡◌, false, IfOk, OnOk, OnErr};
ghost use Rattle.pgs_history.specs.Answers.{submit_answer};
ghost use Rattle.pgs_history.specs.After.{after_submit};
ghost use Rattle.pgs_history.specs.Legal.{IsLegal};
ghost use Rattle.pgs_history.specs.Parked.{is_admitting};

use super::Group;
use crate::weighed::Weighed;
use pgs_history::WriteAnswer;
use pgs_op::Write;
use std::alloc::AllocError;

impl Group {
    // Answers a write by what it comes to.
    fn answer_write(&mut self, write: Write) -> Result<WriteAnswer, AllocError>
        requires idle { is_admitting self.old.past ≡ false }
        ensures answer { IfOk result (λ a. a ≡ submit_answer self.old.made self.old.past write) }
        ensures kept { OnOk result (self.new ≡ record self.old { past = after_submit self.old.made self.old.past write }) }
        ensures err { OnErr result (self.new ≡ self.old) }
    {
        match self.weigh(&write) {
            Ok(Weighed::Declined { declined }) => self.decline(write, declined),
            Ok(Weighed::Again { range }) => self.park_again(write, range),
            Ok(Weighed::Full) => self.turn_away(write),
            Ok(Weighed::Waits { range }) => self.park(write, range),
            Ok(Weighed::Makes { effects }) => self.append(write, effects),
            Err(AllocError) => {
                drop(write);
                Err(AllocError)
            }
        }
    }

    /// Answers a client's write. It is appended to the log where it is accepted, and waits where its family lies in an open
    /// chunk that gives way to no write.
    #[tactic(auto, using(pgs_history::proofs::Legal::legal_submit))]
    pub fn submit(&mut self, write: Write) -> Result<WriteAnswer, AllocError>
        requires idle { is_admitting self.old.past ≡ false }
        ensures answer { IfOk result (λ a. a ≡ submit_answer self.old.made self.old.past write) }
        ensures kept { OnOk result (self.new ≡ record self.old { past = after_submit self.old.made self.old.past write }) }
        ensures err { OnErr result (self.new ≡ self.old) }
        ensures legal { IsLegal self.old.made self.old.past → IsLegal self.new.made self.new.past }
    {
        self.answer_write(write)
    }
}
