//! What a client's write comes to.
ghost use Rattle.std.specs.Prelude.{◌≡◌, true, false, None, IfOk};
ghost use Rattle.pgs_request.specs.Contexts.{bad_place};
ghost use Rattle.pgs_op_log.specs.Logs.{version_in};
ghost use Rattle.pgs_gate.specs.Waits.{is_parked};
ghost use Rattle.pgs_history.specs.Log.{ids};
ghost use Rattle.pgs_history.specs.Scrubs.{open_chunk};
ghost use Rattle.pgs_history.specs.Parked.{parked};
ghost use Rattle.pgs_history.specs.Answers.{where_so, parked_for, verdict, waits};
ghost use Rattle.pgs_group.specs.Weighed.{IsAgain, IsWeighed};
ghost use Rattle.pgs_group.specs.declared.weighed.Weighed.TheVariants as weighed;

use super::Group;
use crate::weighed::Weighed;
use pgs_gate::MOST_PARKED;
use pgs_op::{Write, WriteError};
use pgs_range::FamilyRange;
use pgs_request::{Declined, ReqId};
use std::alloc::AllocError;

impl Group {
    // The open chunk's families, where a write of this request waits already.
    #[tactic(auto, using(crate::proofs::Weighing::not_again, crate::proofs::Weighing::again_or_not))]
    fn again(&self, id: ReqId) -> Result<Option<FamilyRange>, AllocError>
        ensures { IfOk result (λ range. IsAgain self.now.past id range) }
    {
        if !self.waiting.holds(id) {
            return Ok(None);
        }
        self.scrubs.open_range()
    }

    /// What a write comes to.
    #[tactic(auto, using(crate::proofs::Weighing::repeated, crate::proofs::Weighing::again, crate::proofs::Weighing::misplaced))]
    pub(super) fn weigh(&self, write: &Write) -> Result<Weighed, AllocError>
        ensures { IfOk result (λ weighed. IsWeighed self.now.made self.now.past write.now weighed) }
    {
        if let Some(version) = self.version_of(write.id) {
            return Ok(declined(Declined::Repeat { version }));
        }
        if let Some(range) = self.again(write.id)? {
            return Ok(Weighed::Again { range });
        }
        if let Some(place) = write.context.bad_place() {
            return Ok(declined(Declined::BadSnapContext { place }));
        }
        if self.scrubs.waits(&write.family) {
            return self.weigh_waiting(write);
        }
        self.weigh_effects(write)
    }

    // What a write comes to that waits, if there is room.
    #[tactic(auto, using(crate::proofs::Weighing::full, crate::proofs::Weighing::waiting, crate::proofs::Weighing::none_waits))]
    fn weigh_waiting(&self, write: &Write) -> Result<Weighed, AllocError>
        requires new { version_in (ids self.now.past) write.now.id ≡ None }
        requires apart { where_so (is_parked (parked self.now.past) write.now.id) (parked_for (open_chunk self.now.past)) ≡ None }
        requires placed { bad_place write.now.context ≡ None }
        requires waits { waits (verdict self.now.past write.now.family) ≡ true }
        ensures { IfOk result (λ weighed. IsWeighed self.now.made self.now.past write.now weighed) }
    {
        if self.waiting.len() >= MOST_PARKED {
            return Ok(Weighed::Full);
        }
        match self.scrubs.open_range() {
            Ok(Some(range)) => Ok(Weighed::Waits { range }),
            Ok(None) => unreachable!(),
            Err(AllocError) => Err(AllocError),
        }
    }

    // What a write comes to that doesn't wait.
    #[tactic(auto, using(crate::proofs::Weighing::refused, crate::proofs::Weighing::making))]
    fn weigh_effects(&self, write: &Write) -> Result<Weighed, AllocError>
        requires new { version_in (ids self.now.past) write.now.id ≡ None }
        requires apart { where_so (is_parked (parked self.now.past) write.now.id) (parked_for (open_chunk self.now.past)) ≡ None }
        requires placed { bad_place write.now.context ≡ None }
        requires passes { waits (verdict self.now.past write.now.family) ≡ false }
        ensures { IfOk result (λ weighed. IsWeighed self.now.made self.now.past write.now weighed) }
    {
        match self.make(write) {
            Ok(effects) => Ok(Weighed::Makes { effects }),
            Err(WriteError::Refused { refusal }) => Ok(declined(Declined::Refused { refusal })),
            Err(WriteError::Memory) => Err(AllocError),
        }
    }
}

fn declined(declined: Declined) -> Weighed
    ensures { result ≡ weighed.Declined declined }
{
    Weighed::Declined { declined }
}
