use crate::tests::log::making::family;
use pgs_copy::Effect;
use pgs_medium::{CallKind, FailingCall, Item, Medium, RamMedium};
use pgs_name::{HEAD, ObjectId};
use pgs_range::{Bound, Cursor};
use sqlite_items::Items;
use std::alloc::{AllocError, Global};
use std::test::Fail;

// An item that makes empty copies at these snaps of a name.
fn making(alloc: Global, name: &[u8], snaps: &[u64]) -> Result<Item, AllocError> {
    let family = family(alloc, b"", b"", name)?;
    let mut effects = Items::new(alloc);
    for snap in snaps {
        effects.push((*snap, Effect::Clear))?;
    }
    Ok(Item {
        number: 1,
        epoch: 1,
        family,
        effects,
    })
}

// A device of which the listing with this number fails. Of the names a, b and d, as they stand in order, b has no copy.
fn device(alloc: Global, number: u64) -> Result<RamMedium, Fail> {
    let mut failing = Items::new(alloc);
    failing.push(FailingCall {
        kind: CallKind::List,
        number,
    })?;
    let mut device = RamMedium::new(alloc, failing);
    make(alloc, &mut device, b"d", &[3])?;
    make(alloc, &mut device, b"a", &[HEAD, 5])?;
    make(alloc, &mut device, b"b", &[])?;
    Ok(device)
}

// Makes empty copies at these snaps of a name.
fn make(alloc: Global, device: &mut RamMedium, name: &[u8], snaps: &[u64]) -> Result<(), Fail> {
    let item = making(alloc, name, snaps)?;
    device.write(&item).ok().ok_or("a write")?;
    Ok(())
}

// The first position of a device.
fn start() -> Cursor {
    Cursor::At { bound: Bound::Min }
}

// Behind this snap of a name.
fn behind(alloc: Global, name: &[u8], snap: u64) -> Result<Cursor, Fail> {
    let family = family(alloc, b"", b"", name)?;
    let id = ObjectId { family, snap };
    Ok(Cursor::After { id })
}

// Whether a device gives this snap of a name behind a cursor.
fn gives(device: &mut RamMedium, cursor: &Cursor, name: &[u8], snap: u64) -> bool {
    match device.next(cursor, &Bound::Max) {
        Ok(Some(id)) => id.family.name() == name && id.snap == snap,
        Ok(None) => false,
        Err(_) => false,
    }
}

// Whether a device has nothing behind a cursor and below a bound.
fn ends(device: &mut RamMedium, cursor: &Cursor, to: &Bound) -> bool {
    matches!(device.next(cursor, to), Ok(None))
}

#[test]
fn a_listing(rt: HostRuntime) -> Result<(), Fail> {
    let alloc = rt.alloc();
    let mut device = device(alloc, 9)?;
    assert!(rt; gives(&mut device, &start(), b"a", 5));
    assert!(rt; gives(&mut device, &behind(alloc, b"a", 5)?, b"a", HEAD));
    assert!(rt; gives(&mut device, &behind(alloc, b"a", HEAD)?, b"d", 3));
    assert!(rt; ends(&mut device, &behind(alloc, b"d", 3)?, &Bound::Max));
    Ok(())
}

#[test]
fn a_listing_below_a_bound(rt: HostRuntime) -> Result<(), Fail> {
    let mut device = device(rt.alloc(), 9)?;
    let cursor = behind(rt.alloc(), b"a", HEAD)?;
    let to = Bound::At {
        family: family(rt.alloc(), b"", b"", b"d")?,
    };
    assert!(rt; device.least(&cursor, &to)?.is_none());
    assert!(rt; ends(&mut device, &cursor, &to));
    assert!(rt; gives(&mut device, &Cursor::At { bound: to }, b"d", 3));
    Ok(())
}
