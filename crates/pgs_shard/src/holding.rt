//! What the copies of a shard hold.
ghost use Rattle.std.specs.Prelude.{◌≡◌, ◌+◌, IfOk, reverse};
ghost use Rattle.std.specs.Option.{option_copied};
ghost use Rattle.pgs_store.specs.Stores.{copy_size};
ghost use Rattle.pgs_shard_history.specs.Held as defined;
ghost use Rattle.pgs_shard_history.specs.Stores.{stored_by};

use pgs_copy::ObjCopy;
use pgs_medium::Medium;
use pgs_range::{Bound, Cursor};
use pgs_shard_history::Event;
use std::alloc::AllocError;

/// The bytes of a copy, if there is one. A number over 64 bits is refused as want of memory is.
pub fn size_of(copy: Option<&ObjCopy>) -> Result<u64, AllocError>
    ensures { IfOk result (λ size. size ≡ copy_size (option_copied copy.entry)) }
{
    let Some(copy) = copy else {
        return Ok(0);
    };
    match copy.size() {
        Some(size) => Ok(size),
        None => Err(AllocError),
    }
}

/// The bytes of all copies of a device, which it isn't asked for. The events say what it holds.
#[tactic(auto, using(crate::proofs::Sums::turns))]
pub fn held<M: Medium>(medium: &M, events: &[Event]) -> Result<u64, AllocError>
    requires { (M.device medium.now).stored ≡ stored_by (reverse events.now) }
    ensures { IfOk result (λ n. n ≡ defined.held (reverse events.now)) }
{
    let mut cursor = Cursor::At { bound: Bound::Min };
    let mut held = 0u64;
    while let Some(id) = medium.least(&cursor, &Bound::Max)? {
        let size = size_of(medium.copy(&id.family, id.snap))?;
        held = sum(held, size)?;
        cursor = Cursor::After { id };
    }
    Ok(held)
}

/// A sum. One over 64 bits is refused as want of memory is.
pub fn sum(a: u64, b: u64) -> Result<u64, AllocError>
    ensures { IfOk result (λ n. n ≡ a + b) }
{
    match a.checked_add(b) {
        Some(sum) => Ok(sum),
        None => Err(AllocError),
    }
}
