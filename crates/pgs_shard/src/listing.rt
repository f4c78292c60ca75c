ghost use Rattle.std.specs.Prelude.{◌≡◌, IfOk, reverse};
ghost use Rattle.pgs_chunk.specs.Listings as listings;
ghost use Rattle.pgs_shard_history.specs.Positions.{positions};
ghost use Rattle.pgs_shard.specs.Listed.{IsListedOn};
ghost use Rattle.pgs_shard_history.specs.Stores.{stored_by};

use pgs_chunk::is_full;
use pgs_medium::{Medium, MediumError};
use pgs_name::ObjectId;
use pgs_range::{Bound, Cursor};
use pgs_shard_history::Event;
use sqlite_items::Items;
use std::alloc::Global;

// The positions from a bound on, until they are full. The events say what the device holds.
#[tactic(auto, using(crate::proofs::Listings::turns))]
pub fn list_on<M: Medium>(
    medium: &mut M,
    alloc: Global,
    events: &[Event],
    start: &Bound,
    limit: u32,
) -> Result<Items<ObjectId>, MediumError>
    requires { (M.device medium.old).stored ≡ stored_by (reverse events.now) }
    ensures listed { IfOk result (λ ids. ids ≡ listings.listing limit start.now (positions (reverse events.now))) }
    ensures device { IsListedOn limit (listings.listing limit start.now (positions (reverse events.now))) (M.device medium.old) result (M.device medium.new) }
{
    let bound = start.clone()?;
    let mut cursor = Cursor::At { bound };
    let mut listed = Items::new(alloc);
    while !is_full(listed.as_slice(), limit) {
        let Some(id) = medium.next(&cursor, &Bound::Max)? else {
            return Ok(listed);
        };
        let last = id.clone()?;
        listed.push(id)?;
        cursor = Cursor::After { id: last };
    }
    Ok(listed)
}
