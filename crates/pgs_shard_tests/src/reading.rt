//! Readings of a copy: its size, its attributes, parts of its data and pages of its omap.
use pgs_bytes::Bytes;
use pgs_copy::Effect;
use pgs_medium::{CallKind, FailingCall, Item, Medium, OmapPage, RamMedium};
use pgs_name::{Family, HEAD};
use sqlite_items::Items;
use std::alloc::{AllocError, Global};
use std::test::Fail;

fn family(alloc: Global) -> Result<Family, AllocError> {
    let name = Bytes::from_slice(alloc, b"a")?;
    Family::new(Bytes::new(alloc), Bytes::new(alloc), name)
}

// A key that stands behind those of smaller numbers.
fn key(alloc: Global, number: u32) -> Result<Bytes, AllocError> {
    let text = format!(in alloc; "key{}", 1000 + number % 1000)?;
    Bytes::from_slice(alloc, text.as_bytes())
}

// A key with its own text as its value.
fn pair(alloc: Global, number: u32) -> Result<Effect, AllocError> {
    let value = key(alloc, number)?;
    let key = key(alloc, number)?;
    Ok(Effect::SetOmap { key, value })
}

fn data(alloc: Global) -> Result<Effect, AllocError> {
    let bytes = Bytes::from_slice(alloc, b"123456789")?;
    Ok(Effect::SetData { bytes })
}

fn attribute(alloc: Global) -> Result<Effect, AllocError> {
    let name = Bytes::from_slice(alloc, b"_color")?;
    let value = Bytes::from_slice(alloc, b"red")?;
    Ok(Effect::SetAttr { name, value })
}

fn header(alloc: Global) -> Result<Effect, AllocError> {
    let bytes = Bytes::from_slice(alloc, b"header")?;
    Ok(Effect::SetHeader { bytes })
}

// An item that makes a head with 258 keys.
fn item(alloc: Global) -> Result<Item, AllocError> {
    let mut effects = Items::new(alloc);
    effects.push((HEAD, Effect::Clear))?;
    effects.push((HEAD, data(alloc)?))?;
    effects.push((HEAD, attribute(alloc)?))?;
    effects.push((HEAD, header(alloc)?))?;
    for number in 0..258 {
        effects.push((HEAD, pair(alloc, number)?))?;
    }
    let family = family(alloc)?;
    Ok(Item {
        number: 1,
        epoch: 1,
        family,
        effects,
    })
}

// Calls of these kinds, each the first.
fn first_calls(alloc: Global, kinds: &[CallKind]) -> Result<Items<FailingCall>, AllocError> {
    let mut calls = Items::new(alloc);
    for kind in kinds {
        calls.push(FailingCall {
            kind: *kind,
            number: 1,
        })?;
    }
    Ok(calls)
}

fn write<M: Medium>(alloc: Global, device: &mut M) -> Result<(), Fail> {
    let item = item(alloc)?;
    device.write(&item).ok().ok_or("a write")?;
    Ok(())
}

// A device with this head, of which the first call of each of these kinds fails.
fn device(alloc: Global, kinds: &[CallKind]) -> Result<RamMedium, Fail> {
    let failing = first_calls(alloc, kinds)?;
    let mut device = RamMedium::new(alloc, failing);
    write(alloc, &mut device)?;
    Ok(device)
}

// The size of a copy: nothing where it isn't there, or the device fails.
fn size<M: Medium>(device: &mut M, family: &Family, snap: u64) -> Option<u64> {
    device.stat(family, snap).ok()?
}

// Whether an attribute has a value.
fn has_attribute<M: Medium>(device: &mut M, family: &Family, name: &Bytes, value: &[u8]) -> bool {
    match device.attrs(family, HEAD) {
        Ok(Some(attrs)) => match attrs.get(name) {
            Some(found) => found.as_slice() == value,
            None => false,
        },
        _ => false,
    }
}

// Whether so many bytes from a place on are these.
fn reads<M: Medium>(device: &mut M, family: &Family, from: u64, count: u64, wanted: &[u8]) -> bool {
    match device.read(family, HEAD, from, count) {
        Ok(Some(bytes)) => bytes.as_slice() == wanted,
        _ => false,
    }
}

fn page<M: Medium>(device: &mut M, family: &Family, behind: Option<&Bytes>) -> Option<OmapPage> {
    device.omap(family, HEAD, behind).ok()?
}

// How many pairs a page has, its first key, and whether more follow.
fn is_page(page: &Option<OmapPage>, pairs: usize, first: &Bytes, more: bool) -> bool {
    match page {
        Some(page) => page.pairs.len() == pairs && is_headed(page, first) && page.more == more,
        None => false,
    }
}

fn is_headed(page: &OmapPage, first: &Bytes) -> bool {
    page.header.as_slice() == b"header".as_slice() && begins(page, first)
}

fn begins(page: &OmapPage, first: &Bytes) -> bool {
    match page.pairs.get(0) {
        Some((key, value)) => key == first && value == first,
        None => false,
    }
}

// Which of the reading calls fail, of each kind one.
fn failures<M: Medium>(device: &mut M, family: &Family) -> [bool; 4] {
    let stat = device.stat(family, HEAD).is_err();
    let attrs = device.attrs(family, HEAD).is_err();
    let read = device.read(family, HEAD, 0, 9).is_err();
    let omap = device.omap(family, HEAD, None).is_err();
    [stat, attrs, read, omap]
}

#[test]
fn a_copy_read(rt: HostRuntime) -> Result<(), Fail> {
    let mut device = device(rt.alloc(), &[])?;
    let family = family(rt.alloc())?;
    let color = Bytes::from_slice(rt.alloc(), b"_color")?;
    assert_eq!(rt; size(&mut device, &family, HEAD), Some(9));
    assert_eq!(rt; size(&mut device, &family, 4), None);
    assert!(rt; has_attribute(&mut device, &family, &color, b"red"));
    assert!(rt; reads(&mut device, &family, 4, 3, b"567"));
    assert!(rt; reads(&mut device, &family, 7, 3, b"89"));
    assert!(rt; reads(&mut device, &family, 9, 3, b""));
    Ok(())
}

#[test]
fn an_omap_in_pages(rt: HostRuntime) -> Result<(), Fail> {
    let mut device = device(rt.alloc(), &[])?;
    let family = family(rt.alloc())?;
    let first = page(&mut device, &family, None);
    assert!(rt; is_page(&first, 256, &key(rt.alloc(), 0)?, true));
    let last = key(rt.alloc(), 255)?;
    let second = page(&mut device, &family, Some(&last));
    assert!(rt; is_page(&second, 2, &key(rt.alloc(), 256)?, false));
    Ok(())
}

#[test]
fn a_failing_call_of_each_kind(rt: HostRuntime) -> Result<(), Fail> {
    let kinds = [
        CallKind::Stat,
        CallKind::Attrs,
        CallKind::Read,
        CallKind::Omap,
    ];
    let mut device = device(rt.alloc(), &kinds)?;
    let family = family(rt.alloc())?;
    assert_eq!(rt; failures(&mut device, &family), [true; 4]);
    assert_eq!(rt; device.faults(), 4);
    assert_eq!(rt; size(&mut device, &family, HEAD), Some(9));
    assert!(rt; reads(&mut device, &family, 0, 9, b"123456789"));
    Ok(())
}
