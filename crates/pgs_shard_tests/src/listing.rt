//! Listings of a few positions, some of clones.
ghost use Rattle.std.specs.Prelude.{◌≡◌, IfOk};
ghost use Rattle.pgs_shard_history.specs.Feeds.{AreNext};

use crate::making::device;
use pgs_bytes::Bytes;
use pgs_copy::Effect;
use pgs_medium::{CallKind, Item, Medium, RamMedium};
use pgs_name::{Family, HEAD, ObjectId, is_before};
use pgs_range::{Bound, Cursor};
use pgs_shard::{ListError, Shard};
use pgs_shard_history::Event;
use sqlite_items::Items;
use std::alloc::{AllocError, Global};
use std::test::Fail;

// An item that makes a clone and a head.
fn item(alloc: Global, number: u64, name: &[u8]) -> Result<Item, AllocError>
    ensures { IfOk result (λ item. item.number ≡ number) }
{
    let name = Bytes::from_slice(alloc, name)?;
    let family = Family::new(Bytes::new(alloc), Bytes::new(alloc), name)?;
    let mut effects = Items::new(alloc);
    effects.push((HEAD, Effect::Clear))?;
    effects.push((3, Effect::Clear))?;
    Ok(Item {
        number,
        epoch: 1,
        family,
        effects,
    })
}

fn items(alloc: Global) -> Result<Items<Item>, AllocError>
    ensures { IfOk result (λ items. AreNext 0 items) }
{
    let mut items = Items::new(alloc);
    let first = item(alloc, 1, b"a")?;
    items.push(first)?;
    let second = item(alloc, 2, b"b")?;
    items.push(second)?;
    let third = item(alloc, 3, b"c")?;
    items.push(third)?;
    Ok(items)
}

// Feeds a shard these items, and applies them.
fn fill<M: Medium>(alloc: Global, shard: &mut Shard<M>) -> Result<(), AllocError> {
    let items = items(alloc)?;
    shard.feed(0, items, None)?;
    for _ in 0..3 {
        let _ = shard.apply_next();
    }
    Ok(())
}

// A shard with these items, of which a listing fails, by its number from 1.
fn shard(alloc: Global, failing: u64) -> Result<Shard<RamMedium>, AllocError> {
    let device = device(alloc, CallKind::List, failing)?;
    let mut shard = Shard::new(alloc, device, 3, 4);
    fill(alloc, &mut shard)?;
    Ok(shard)
}

// Whether each position stands before the next.
fn ascend(ids: &[ObjectId]) -> bool {
    let mut last: Option<&ObjectId> = None;
    for id in ids {
        if let Some(before) = last {
            if !is_before(before, id) {
                return false;
            }
        }
        last = Some(id);
    }
    true
}

// How many positions a device lists by single calls.
fn count_by_calls<M: Medium>(device: &mut M) -> Option<u64> {
    let mut cursor = Cursor::At { bound: Bound::Min };
    for count in 0..100u64 {
        match device.next(&cursor, &Bound::Max).ok()? {
            Some(id) => cursor = Cursor::After { id },
            None => return Some(count),
        }
    }
    None
}

fn write<M: Medium>(alloc: Global, device: &mut M) -> Result<(), Fail> {
    let items = items(alloc)?;
    for item in items.as_slice() {
        device.write(item).ok().ok_or("written")?;
    }
    Ok(())
}

#[test]
fn positions_are_listed_by_single_calls(rt: HostRuntime) -> Result<(), Fail> {
    let mut device = device(rt.alloc(), CallKind::List, 100)?;
    write(rt.alloc(), &mut device)?;
    assert_eq!(rt; count_by_calls(&mut device), Some(6));
    Ok(())
}

// How many positions a shard lists from a bound on, where they ascend.
fn count_listed<M: Medium>(shard: &mut Shard<M>, start: &Bound, limit: u32) -> Option<usize> {
    let listed = shard.list(start, limit).ok()?;
    if !ascend(listed.as_slice()) {
        return None;
    }
    Some(listed.len())
}

fn count_events<M: Medium>(shard: &Shard<M>) -> usize {
    shard.events().len()
}

// So many positions are listed for each limit: two families at least, and more than the limit.
#[test]
fn a_listing_stops_behind_its_limit(rt: HostRuntime) -> Result<(), Fail> {
    let mut shard = shard(rt.alloc(), 100)?;
    let rows = [(0, 3), (2, 3), (3, 4), (5, 6), (6, 6), (25, 6)];
    for (limit, wanted) in rows {
        assert_eq!(rt; count_listed(&mut shard, &Bound::Min, limit), Some(wanted));
    }
    assert_eq!(rt; count_events(&shard), 4);
    Ok(())
}

// Whether a listing is answered with the first fault.
fn fails<M: Medium>(shard: &mut Shard<M>) -> bool {
    let listed = shard.list(&Bound::Min, 25);
    matches!(&listed, Err(ListError::ListFault { count: 1 }))
}

// Whether the event of this index is a listing that failed with the first fault.
fn is_failure<M: Medium>(shard: &Shard<M>, index: usize) -> bool {
    matches!(
        shard.events().get(index),
        Some(Event::ListFailed { count: 1 })
    )
}

#[test]
fn a_failed_listing_is_kept(rt: HostRuntime) -> Result<(), Fail> {
    let mut shard = shard(rt.alloc(), 2)?;
    assert!(rt; fails(&mut shard));
    assert!(rt; is_failure(&shard, 4));
    assert_eq!(rt; count_listed(&mut shard, &Bound::Max, 25), Some(0));
    Ok(())
}
