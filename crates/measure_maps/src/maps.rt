ghost use Rattle.std.specs.Prelude.{IfOk};
ghost use Rattle.pgs_map.specs.Entries.{AreAscending};

use crate::ascending::are_ascending;
use crate::entries::entry;
use anyhow::{Result, bail};
use pgs_bytes::Bytes;
use pgs_map::{Entry, ScrubMap};
use pgs_name::{Family, HEAD, ObjectId};
use pgs_range::{Bound, FamilyRange};
use sqlite_items::Items;
use std::alloc::{AllocError, Global};

// The head of the object with this number.
fn head(alloc: Global, number: u32) -> Result<ObjectId, AllocError> {
    let name = format!(in alloc; "object{number}")?;
    let name = Bytes::from_slice(alloc, name.as_bytes())?;
    let family = Family::new(Bytes::new(alloc), Bytes::new(alloc), name)?;
    Ok(ObjectId { family, snap: HEAD })
}

/// The heads of so many objects, in their order.
pub fn positions(alloc: Global, count: u32) -> Result<Vec<ObjectId>, AllocError> {
    let mut ids = Vec::new(alloc);
    for number in 0..count {
        ids.push(head(alloc, number)?)?;
    }
    ids.sort()?;
    Ok(ids)
}

fn entries(alloc: Global, osd: u32, ids: &[ObjectId]) -> Result<Items<Entry>, AllocError> {
    let mut entries = Items::new(alloc);
    let mut place = 0u32;
    for id in ids {
        entries.push(entry(alloc, osd, id, place)?)?;
        place = place.wrapping_add(1);
    }
    Ok(entries)
}

/// A member's map of all positions. It is refused where they aren't in order, which `Report::of` asks for.
pub fn member_map(alloc: Global, osd: u32, ids: &[ObjectId]) -> Result<ScrubMap>
    ensures { IfOk result (λ m. AreAscending m.entries) }
{
    let entries = entries(alloc, osd, ids)?;
    if !are_ascending(entries.as_slice()) {
        bail!("the positions aren't in order");
    }
    Ok(ScrubMap {
        osd,
        serial: 1,
        chunk: 1,
        needed: 0,
        applied: 0,
        range: FamilyRange {
            from: Bound::Min,
            to: Bound::Max,
        },
        entries,
    })
}
