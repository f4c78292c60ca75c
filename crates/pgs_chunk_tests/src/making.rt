//! Lists of positions, made in their order.
ghost use Rattle.std.specs.Prelude.{IfOk};
ghost use Rattle.pgs_chunk.specs.Positions.{Ascends};
ghost use Rattle.pgs_chunk_tests.specs.Clones.{AreClones, IsNamed};

use pgs_name::{NameError, ObjectId};
use sqlite_items::Items;
use std::alloc::Global;

/// The first clones of an object, as many as there shall be, and one position of the next object.
#[tactic(auto, using(crate::proofs::Pushes::next_pushed))]
pub fn clones_and_next(alloc: Global, count: u64) -> Result<Items<ObjectId>, NameError>
    ensures { IfOk result (λ ids. Ascends ids) }
{
    let mut ids = clones(alloc, count)?;
    let next = named(alloc, b"b", 7)?;
    ids.push(next)?;
    Ok(ids)
}

// The first clones of an object.
#[tactic(auto, using(crate::proofs::Pushes::pushes))]
fn clones(alloc: Global, count: u64) -> Result<Items<ObjectId>, NameError>
    ensures ascends { IfOk result (λ ids. Ascends ids) }
    ensures clones { IfOk result (λ ids. AreClones count ids) }
{
    let mut ids = Items::new(alloc);
    let mut snap = 0;
    while snap < count {
        let id = named(alloc, b"a", snap + 1)?;
        ids.push(id)?;
        snap += 1;
    }
    Ok(ids)
}

// A position with the key k.
fn named(alloc: Global, name: &[u8], snap: u64) -> Result<ObjectId, NameError>
    ensures { IfOk result (λ id. IsNamed name.now snap id) }
{
    ObjectId::new(alloc, b"", b"k", name, snap)
}
