ghost use Rattle.std.specs.Prelude.{IfOk, IfSome};
ghost use Rattle.pgs_scan.specs.Steps.{IsFrontAt};

use crate::{Reading, ReadingStep};
use pgs_bytes::Bytes;
use pgs_copy::Effect;
use pgs_crc::Tables;
use pgs_medium::{CallKind, FailingCall, Item, Medium, RamMedium};
use pgs_name::{Family, HEAD, ObjectId};
use sqlite_items::Items;
use std::alloc::{AllocError, Global};
use std::test::Fail;

fn family(alloc: Global) -> Result<Family, AllocError> {
    let name = Bytes::from_slice(alloc, b"a")?;
    Family::new(Bytes::new(alloc), Bytes::new(alloc), name)
}

fn head(alloc: Global) -> Result<ObjectId, AllocError> {
    let family = family(alloc)?;
    Ok(ObjectId { family, snap: HEAD })
}

fn data(alloc: Global) -> Result<Effect, AllocError> {
    let bytes = Bytes::from_slice(alloc, b"0123456789")?;
    Ok(Effect::SetData { bytes })
}

fn attribute(alloc: Global) -> Result<Effect, AllocError> {
    let name = Bytes::from_slice(alloc, b"_color")?;
    let value = Bytes::from_slice(alloc, b"red")?;
    Ok(Effect::SetAttr { name, value })
}

// An item that makes a head of 10 bytes with one attribute.
fn item(alloc: Global) -> Result<Item, AllocError> {
    let mut effects = Items::new(alloc);
    effects.push((HEAD, data(alloc)?))?;
    effects.push((HEAD, attribute(alloc)?))?;
    let family = family(alloc)?;
    Ok(Item {
        number: 1,
        epoch: 1,
        family,
        effects,
    })
}

// A device with this head, of which a read fails, by its number from 1.
fn device(alloc: Global, failing_read: Option<u64>) -> Result<RamMedium, Fail> {
    let mut failing = Items::new(alloc);
    if let Some(number) = failing_read {
        failing.push(FailingCall {
            kind: CallKind::Read,
            number,
        })?;
    }
    let mut device = RamMedium::new(alloc, failing);
    let item = item(alloc)?;
    device.write(&item).ok().ok_or("a write")?;
    Ok(device)
}

// The first step, where a copy is there.
fn begin<M: Medium>(
    alloc: Global,
    device: &mut M,
    id: &ObjectId,
) -> Result<Option<Reading>, AllocError>
    ensures { IfOk result (λ begun. IfSome begun (λ read. IsFrontAt ((M.device device.new).stored id.now.family id.now.snap) read)) }
{
    if device.copy(&id.family, id.snap).is_none() {
        return Ok(None);
    }
    Reading::begin(alloc, device, id)
}

// A further step, of at most 4 bytes.
fn step<M: Medium>(
    device: &mut M,
    id: &ObjectId,
    reading: &mut Reading,
) -> Result<ReadingStep, AllocError>
    requires { IsFrontAt ((M.device device.old).stored id.now.family id.now.snap) reading.old }
    ensures { IsFrontAt ((M.device device.new).stored id.now.family id.now.snap) reading.new }
{
    reading.read_on(device, id, 4)
}

// The first step and four further ones, where a copy is there: what was read, and what they came to.
fn take_steps<M: Medium>(
    alloc: Global,
    device: &mut M,
    id: &ObjectId,
) -> Result<Option<(Reading, [ReadingStep; 4])>, AllocError> {
    let Some(mut reading) = begin(alloc, device, id)? else {
        return Ok(None);
    };
    let first = step(device, id, &mut reading)?;
    let second = step(device, id, &mut reading)?;
    let third = step(device, id, &mut reading)?;
    let fourth = step(device, id, &mut reading)?;
    Ok(Some((reading, [first, second, third, fourth])))
}

// What was read of the head, and what the steps came to.
fn read_head(
    alloc: Global,
    failing_read: Option<u64>,
) -> Result<(Reading, [ReadingStep; 4]), Fail> {
    let mut device = device(alloc, failing_read)?;
    let id = head(alloc)?;
    match take_steps(alloc, &mut device, &id)? {
        Some(read) => Ok(read),
        None => Err("no copy".into()),
    }
}

fn size_told(alloc: Global, reading: &Reading) -> Result<u64, AllocError> {
    let tables = Tables::make(alloc)?;
    let id = head(alloc)?;
    let attrs = reading.attrs()?;
    let entry = reading.deep_entry(&tables, id, attrs);
    Ok(entry.size)
}

#[test]
fn a_copy_read_whole(rt: HostRuntime) -> Result<(), Fail> {
    let (reading, steps) = read_head(rt.alloc(), None)?;
    assert_eq!(rt;
        steps,
        [
            ReadingStep::More,
            ReadingStep::More,
            ReadingStep::More,
            ReadingStep::Whole
        ]
    );
    assert_eq!(rt; size_told(rt.alloc(), &reading)?, 10);
    Ok(())
}

#[test]
fn a_read_that_fails(rt: HostRuntime) -> Result<(), Fail> {
    let (reading, steps) = read_head(rt.alloc(), Some(2))?;
    assert_eq!(rt;
        steps,
        [
            ReadingStep::More,
            ReadingStep::Failed,
            ReadingStep::More,
            ReadingStep::More
        ]
    );
    assert_eq!(rt; size_told(rt.alloc(), &reading)?, 10);
    Ok(())
}
