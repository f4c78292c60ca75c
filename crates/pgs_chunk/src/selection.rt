ghost use Rattle.std.specs.Prelude.{◌≡◌, false, IsTrue, IfOk};
ghost use Rattle.pgs_chunk.specs.Positions.{Ascends};
ghost use Rattle.pgs_chunk.specs.Chunk.{chunk_of};
ghost use Rattle.pgs_chunk.specs.Selection.{IsSelected, IsSettled, is_enough};
ghost use Rattle.pgs_range.specs.Ends.{is_upto};
ghost use Rattle.pgs_range.specs.declared.bound.Bound.TheVariants.{Max};

use crate::ending::end_of;
use crate::starting::from_start;
use pgs_name::ObjectId;
use pgs_range::{Bound, FamilyRange};
use std::alloc::AllocError;

/// The families of a chunk that begins at a bound: as many of the leading families as have together at most so many of the
/// listed positions, and at least one.
#[tactic(auto, using(crate::proofs::Chunks::chunks))]
pub fn select(listed: &[ObjectId], start: &Bound, limit: u32) -> Result<FamilyRange, AllocError>
    requires ascends { Ascends listed.now }
    ensures selected { IfOk result (λ range. IsSelected limit listed.now start.now range) }

    // There is one such range.
    ensures told { IfOk result (λ range. range ≡ chunk_of limit listed.now start.now) }

    // A listing may stop where enough is listed.
    ensures settled { IsTrue (is_enough limit listed.now start.now) → IfOk result (λ range. IsSettled limit listed.now start.now range) }

    // So the next chunk begins above this one.
    ensures above { is_upto Max start.now ≡ false → IfOk result (λ range. is_upto range.to start.now ≡ false) }
{
    selected(listed, start, limit)
}

// The same, without what follows from it.
fn selected(listed: &[ObjectId], start: &Bound, limit: u32) -> Result<FamilyRange, AllocError>
    requires ascends { Ascends listed.now }
    ensures { IfOk result (λ range. range ≡ chunk_of limit listed.now start.now) }
{
    let rest = from_start(listed, start);
    let to = end_of(rest, limit)?;
    let from = start.clone()?;
    Ok(FamilyRange { from, to })
}
