ghost use Rattle.std.specs.Prelude.{◌≡◌, drop, IfOk};
ghost use Rattle.std.specs.Option.{option_copied};
ghost use Rattle.pgs_chunk.specs.Chunk.{bound_at};
ghost use Rattle.pgs_chunk.specs.Next as next;

use pgs_name::ObjectId;
use pgs_range::Bound;
use std::alloc::AllocError;

/// Where the chunk of these positions ends.
pub fn end_of(listed: &[ObjectId], limit: u32) -> Result<Bound, AllocError>
    ensures { IfOk result (λ end. end ≡ bound_at (next.next_position limit listed.now)) }
{
    match next_position(listed, limit as usize) {
        Some(id) => {
            let family = id.family.clone()?;
            Ok(Bound::At { family })
        }
        None => Ok(Bound::Max),
    }
}

// The first position that isn't of the first family, behind as many as the limit.
fn next_position(listed: &[ObjectId], limit: usize) -> Option<&ObjectId>
    ensures { option_copied result ≡ next.next_position limit listed.now }
{
    match listed.first() {
        Some(first) => other_than(first, listed, limit),
        None => None,
    }
}

// The first position that isn't of a family, behind so many.
fn other_than<'a>(first: &ObjectId, listed: &'a [ObjectId], passed: usize) -> Option<&'a ObjectId>
    ensures { option_copied result ≡ next.other_than first.now (drop passed listed.now) }
{
    listed
        .iter()
        .skip(passed)
        .find(|id| first.family != id.family)
}
