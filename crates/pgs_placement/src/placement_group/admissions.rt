//! The writes that waited and are taken up after a step.
ghost use Rattle.std.specs.Prelude.{◌≡◌, ◌∷◌, false, IfOk, OnOk};
ghost use Rattle.pgs_history.specs.After.{after_admit};
ghost use Rattle.pgs_group.specs.Steps.{admit_told};
ghost use Rattle.pgs_history.specs.Parked.{is_admitting, next_admitted};
ghost use Rattle.pgs_placement.specs.Admissions as defined;

use super::PlacementGroup;
use crate::saying::write_said;
use pgs_done::Done;
use pgs_group::Admitted;
use std::alloc::AllocError;

impl PlacementGroup {
    // Takes up the writes that waited, in the order in which they came, where no chunk is open.
    #[tactic(auto, using(crate::proofs::Admissions::admissions))]
    pub(super) fn admit_all(&mut self) -> Result<(), AllocError>
        ensures after { OnOk result (self.new ≡ defined.all_admitted self.old) }
        ensures idle { OnOk result (is_admitting self.new.past ≡ false) }
    {
        while self.group.is_admitting() {
            self.admit()?;
        }
        Ok(())
    }

    // Takes up the write that waits first, if one is to be taken up.
    #[tactic(auto, using(crate::proofs::Admissions::admitted_so))]
    fn admit(&mut self) -> Result<(), AllocError>
        ensures { OnOk result (self.new ≡ defined.admitting (next_admitted self.old.past) self.old) }
    {
        let Some(admitted) = self.admit_next()? else {
            return Ok(());
        };
        self.keep_admitted(&admitted)
    }

    // The group takes it up.
    fn admit_next(&mut self) -> Result<Option<Admitted>, AllocError>
        ensures answer { IfOk result (λ told. told ≡ admit_told self.old.made self.old.past) }
        ensures kept { OnOk result (self.new ≡ record self.old { past = after_admit self.old.made self.old.past }) }
    {
        self.group.admit_next()
    }

    // What it was answered is kept.
    fn keep_admitted(&mut self, admitted: &Admitted) -> Result<(), AllocError>
        ensures { OnOk result (self.new ≡ record self.old { done = defined.admitted_line admitted.now ∷ self.old.done }) }
    {
        let answer = write_said(self.alloc, &admitted.answer)?;
        self.done.push(Done::Admit {
            client: admitted.id.client,
            serial: admitted.id.serial,
            answer,
        })?;
        Ok(())
    }
}
