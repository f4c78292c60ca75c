//! How a group takes up the writes that waited.
ghost use Rattle.std.specs.Prelude.{◌≡◌, ◌+◌, true, length, is_some, IfOk, OnOk, OnErr};
ghost use Rattle.std.specs.Option.{option_copied};
ghost use Rattle.pgs_history.specs.Parked.{parked, next_admitted, is_admitting};
ghost use Rattle.pgs_history.specs.After.{after_admit};
ghost use Rattle.pgs_history.specs.Legal.{IsLegal};
ghost use Rattle.pgs_group.specs.Steps.{admit_told};
ghost use Rattle.pgs_group.specs.Weighed.{IsDue, IsRefusing, IsAdmitting};

use super::Group;
use crate::accepting::accept;
use crate::admitted::Admitted;
use crate::due::Due;
use pgs_copy::Effect;
use pgs_history::{Event, WriteAnswer};
use pgs_op::{Write, WriteError};
use pgs_request::{Declined, Refusal};
use sqlite_items::Items;
use std::alloc::AllocError;

impl Group {
    // The write that is to be taken up next.
    #[tactic(auto, using(crate::proofs::Admissions::first_so))]
    fn next_admitted(&self) -> Option<&Write>
        ensures { option_copied result ≡ next_admitted self.now.past }
    {
        if self.scrubs.open_chunk.is_some() {
            return None;
        }
        self.waiting.get(0)
    }

    // What the write comes to that is to be taken up next.
    #[tactic(auto, using(crate::proofs::Admissions::refusing, crate::proofs::Admissions::admitting))]
    fn due(&self) -> Result<Due, AllocError>
        ensures { IfOk result (λ due. IsDue self.now.made self.now.past due) }
    {
        let Some(write) = self.next_admitted() else {
            return Ok(Due::Nothing);
        };
        match self.make(write) {
            Ok(effects) => Ok(Due::Makes { effects }),
            Err(WriteError::Refused { refusal }) => Ok(Due::Refused { refusal }),
            Err(WriteError::Memory) => Err(AllocError),
        }
    }

    // The write that waits first makes no effects.
    fn refuse_next(&mut self, refusal: Refusal) -> Result<Option<Admitted>, AllocError>
        requires { IsRefusing self.old.made self.old.past refusal }
        ensures answer { IfOk result (λ told. told ≡ admit_told self.old.made self.old.past) }
        ensures kept { OnOk result (self.new ≡ record self.old { past = after_admit self.old.made self.old.past }) }
        ensures err { OnErr result (self.new ≡ self.old) }
    {
        self.events.reserve(1)?;
        self.refused.reserve(1)?;
        let Some(oldest) = self.waiting.take_first() else {
            unreachable!()
        };
        let id = oldest.id;
        self.refused.push_reserved((id, refusal));
        let declined = Declined::Refused { refusal };
        let answer = WriteAnswer::Declined { declined };
        let write = oldest;
        self.events.push_reserved(Event::Admit { write, answer });
        let answer = WriteAnswer::Declined { declined };
        Ok(Some(Admitted { id, answer }))
    }

    // The write that waits first is appended to the log.
    fn append_next(&mut self, effects: Items<(u64, Effect)>) -> Result<Option<Admitted>, AllocError>
        requires { IsAdmitting self.old.made self.old.past effects }
        ensures answer { IfOk result (λ told. told ≡ admit_told self.old.made self.old.past) }
        ensures kept { OnOk result (self.new ≡ record self.old { past = after_admit self.old.made self.old.past }) }
        ensures err { OnErr result (self.new ≡ self.old) }
    {
        self.events.reserve(1)?;
        let version = self.next_version();
        let Some(first) = self.waiting.get(0) else {
            unreachable!()
        };
        let (log, clean) = (&mut self.log, &mut self.clean);
        accept(self.alloc, log, clean, version, first, effects)?;
        let Some(write) = self.waiting.take_first() else {
            unreachable!()
        };
        let id = write.id;
        let preempts = None;
        let answer = WriteAnswer::Accepted { version, preempts };
        self.events.push_reserved(Event::Admit { write, answer });
        let answer = WriteAnswer::Accepted { version, preempts };
        Ok(Some(Admitted { id, answer }))
    }

    // Takes up the write that waits first, where no chunk is open.
    fn take_up(&mut self) -> Result<Option<Admitted>, AllocError>
        ensures answer { IfOk result (λ told. told ≡ admit_told self.old.made self.old.past) }
        ensures kept { OnOk result (self.new ≡ record self.old { past = after_admit self.old.made self.old.past }) }
        ensures err { OnErr result (self.new ≡ self.old) }
    {
        match self.due()? {
            Due::Nothing => Ok(None),
            Due::Refused { refusal } => self.refuse_next(refusal),
            Due::Makes { effects } => self.append_next(effects),
        }
    }

    /// Whether a write that waited is to be taken up, before anything else is asked of the group.
    pub fn is_admitting(&self) -> bool
        ensures { result ≡ is_admitting self.now.past }
    {
        self.next_admitted().is_some()
    }

    /// Takes up the write that waits first, where no chunk is open. It answers nothing where none is to be taken up; else it
    /// is called again, before anything else is asked of the group, and one write less waits.
    #[tactic(auto, using(pgs_history::proofs::Legal::legal_admit, crate::proofs::Admissions::told_so, crate::proofs::Admissions::fewer_so))]
    pub fn admit_next(&mut self) -> Result<Option<Admitted>, AllocError>
        ensures answer { IfOk result (λ told. told ≡ admit_told self.old.made self.old.past) }
        ensures kept { OnOk result (self.new ≡ record self.old { past = after_admit self.old.made self.old.past }) }
        ensures err { OnErr result (self.new ≡ self.old) }
        ensures told { IfOk result (λ told. is_some told ≡ is_admitting self.old.past) }
        ensures fewer { is_admitting self.old.past ≡ true → OnOk result (length (parked self.new.past) + 1 ≡ length (parked self.old.past)) }
        ensures legal { IsLegal self.old.made self.old.past → IsLegal self.new.made self.new.past }
    {
        self.take_up()
    }
}
