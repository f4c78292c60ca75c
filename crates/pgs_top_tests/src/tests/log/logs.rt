ghost use Rattle.std.specs.Prelude.{◌≡◌, IfOk};

use crate::tests::log::making::family;
use pgs_medium::Item;
use pgs_op_log::{GroupLog, LogError};
use pgs_range::{Bound, FamilyRange};
use pgs_request::ReqId;
use sqlite_items::Items;
use std::alloc::{AllocError, Global};
use std::test::Fail;

fn item(alloc: Global, number: u64, name: &[u8]) -> Result<Item, AllocError>
    ensures { IfOk result (λ item. item.number ≡ number) }
{
    let family = family(alloc, b"", b"", name)?;
    Ok(Item {
        number,
        epoch: 4,
        family,
        effects: Items::new(alloc),
    })
}

// Appends an item of a request, unless the log has the request.
fn append(
    alloc: Global,
    log: &mut GroupLog,
    name: &[u8],
    id: ReqId,
    bytes: u32,
) -> Result<(), LogError> {
    if let Some(_) = log.version_of(id) {
        return Ok(());
    }
    let number = log.len() + 1;
    match item(alloc, number, name) {
        Ok(item) => log.append(item, Some(id), u64::from(bytes)),
        Err(_) => Err(LogError::Memory),
    }
}

fn request(serial: u32) -> ReqId {
    ReqId { client: 1, serial }
}

// Three items: the log is full by the third.
fn full_log(alloc: Global) -> Result<GroupLog, LogError> {
    let mut log = GroupLog::new(alloc);
    append(alloc, &mut log, b"a", request(7), 10)?;
    append(alloc, &mut log, b"b", request(8), 16_777_205)?;
    append(alloc, &mut log, b"d", request(9), 1)?;
    Ok(log)
}

#[test]
fn a_log(rt: HostRuntime) -> Result<(), Fail> {
    let log = full_log(rt.alloc()).ok().ok_or("a log")?;
    assert_eq!(rt; log.len(), 3);
    assert_eq!(rt; log.bytes(), 16_777_216);
    let version = log.version_of(request(8)).ok_or("a version")?;
    assert_eq!(rt; version.number, 2);
    assert!(rt; log.version_of(request(10)).is_none());
    Ok(())
}

#[test]
fn items_after(rt: HostRuntime) -> Result<(), Fail> {
    let mut log = full_log(rt.alloc()).ok().ok_or("a log")?;
    log.reserve()?;
    for from in 0..5u64 {
        let items = log.items_after(rt.alloc(), from)?;
        assert_eq!(rt; items.len() as u64, 3u64.saturating_sub(from));
    }
    let items = log.items_after(rt.alloc(), 1)?;
    let first = items.get(0).ok_or("an item")?;
    assert_eq!(rt; first.number, 2);
    Ok(())
}

// The number of the newest item of a name before this one in the order of families: a, b, d, c.
fn newest_before(alloc: Global, log: &GroupLog, name: &[u8]) -> Result<u64, AllocError> {
    let to = Bound::At {
        family: family(alloc, b"", b"", name)?,
    };
    let range = FamilyRange {
        from: Bound::Min,
        to,
    };
    Ok(log.newest_in(&range))
}

#[test]
fn newest_items(rt: HostRuntime) -> Result<(), Fail> {
    let log = full_log(rt.alloc()).ok().ok_or("a log")?;
    assert_eq!(rt; newest_before(rt.alloc(), &log, b"a")?, 0);
    assert_eq!(rt; newest_before(rt.alloc(), &log, b"b")?, 1);
    assert_eq!(rt; newest_before(rt.alloc(), &log, b"d")?, 2);
    assert_eq!(rt; newest_before(rt.alloc(), &log, b"c")?, 3);
    Ok(())
}
