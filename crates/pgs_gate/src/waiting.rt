ghost use Rattle.std.specs.Prelude.{◌≡◌, ◌≤◌, ◌↔◌, IsTrue, [], length, false, Any, slice_get};
ghost use Rattle.std.specs.Option.{option_copied};
ghost use Rattle.pgs_gate.specs.Waits.{is_parked, AreDistinct, IsParked, IsTaken};
ghost use Rattle.pgs_gate.specs.declared.limits.TheConstants.{MOST_PARKED};

use crate::limits::MOST_PARKED;
use crate::park_error::ParkError;
use pgs_op::Write;
use pgs_request::ReqId;
use std::alloc::Global;
use std::collections::VecDeque;
use std::marker::Model;

/// The writes that wait for the open chunk to close, in the order in which they came.
#[derive(Drop)]
pub struct Waiting {
    writes: VecDeque<Write>,
}

impl Model for Waiting {
    ghost use Rattle.std.specs.Prelude.{List};
    ghost use Rattle.pgs_op.specs.declared.write.Write.{Write as Parked};
    ghost use Rattle.pgs_gate.specs.Waits.{IsKept};

    ghost Value = { List Parked };

    ghost view = { λ w. w.writes.items };

    ghost invariant = { λ w. IsKept w.writes.items };
}

impl Waiting {
    /// No write. It takes no memory.
    pub fn new(alloc: Global) -> Waiting
        ensures { result ≡ [] }
    {
        Waiting {
            writes: VecDeque::new(alloc),
        }
    }

    /// How many writes are parked.
    pub fn len(&self) -> usize
        ensures len { result ≡ length self.now }
        ensures within { result ≤ MOST_PARKED }
        ensures distinct { AreDistinct self.now }
    {
        self.writes.len()
    }

    /// Whether a write of this request is parked.
    #[tactic(auto, using(crate::proofs::Parked::parked_is))]
    pub fn holds(&self, id: ReqId) -> bool
        ensures told { result ≡ is_parked self.now id }
        ensures held { IsTrue result ↔ Any (λ write. write.id ≡ id) self.now }
    {
        self.writes.iter().any(|write| write.id == id)
    }

    /// Parks a write behind the others.
    #[tactic(auto, using(crate::proofs::Parked::kept_behind))]
    pub fn park(&mut self, write: Write) -> Result<(), ParkError>
        requires { is_parked self.old write.id ≡ false }
        ensures { IsParked result self.old self.new write }
    {
        let count = self.writes.len();
        if count >= MOST_PARKED {
            let count = count as u64;
            return Err(ParkError::QueueFull { count });
        }
        self.writes.reserve(1)?;
        self.writes.push_back_reserved(write);
        Ok(())
    }

    /// Takes the oldest of them.
    #[tactic(auto, using(crate::proofs::Parked::kept_rest))]
    pub fn take_first(&mut self) -> Option<Write>
        ensures { IsTaken result self.old self.new }
    {
        self.writes.pop_front()
    }

    /// The write before which so many came.
    pub fn get(&self, at: usize) -> Option<&Write>
        ensures { option_copied result ≡ slice_get self.now at }
    {
        self.writes.get(at)
    }
}
