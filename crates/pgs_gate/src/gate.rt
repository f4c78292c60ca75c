ghost use Rattle.std.specs.Prelude.{◌≡◌, Some, None};
ghost use Rattle.pgs_gate.specs.Gate.{verdict_of};

use crate::verdict::Verdict;
use pgs_name::Family;
use pgs_range::FamilyRange;
use std::marker::Model;

/// What a client's write meets: the chunk that a scrub has open, or none.
#[derive(Drop)]
pub struct Gate<'a> {
    range: Option<&'a FamilyRange>,
    firm: bool,
}

impl<'a> Model for Gate<'a> {
    ghost use Rattle.std.specs.Prelude.{Option};
    ghost use Rattle.pgs_gate.specs.Gate.{OpenChunk, chunk_of};
    ghost use Rattle.std.specs.Option.{option_copied};

    ghost Value = { Option OpenChunk };

    ghost view = { λ g. chunk_of (option_copied g.range) g.firm };
}

impl<'a> Gate<'a> {
    /// A gate where no chunk is open.
    pub fn without_chunk() -> Gate<'a>
        ensures { result ≡ None }
    {
        Gate {
            range: None,
            firm: false,
        }
    }

    /// The gate of an open chunk with these families. A firm one gives way to no write.
    pub fn of_chunk(range: &'a FamilyRange, firm: bool) -> Gate<'a>
        ensures { result ≡ Some (record { range = range.now; firm = firm }) }
    {
        Gate {
            range: Some(range),
            firm,
        }
    }

    /// What becomes of a write to a family. It takes no memory.
    pub fn check(&self, family: &Family) -> Verdict
        ensures { result ≡ verdict_of self.now family.now }
    {
        let Some(range) = self.range else {
            return Verdict::Pass;
        };
        if !range.in_range(family) {
            return Verdict::Pass;
        }
        if self.firm {
            return Verdict::Waits;
        }
        Verdict::Preempts
    }
}
