use pgs_bytes::Bytes;
use pgs_copy::{Effect, ObjCopy, Pairs};
use pgs_growth::{Growth, growth};
use std::alloc::{AllocError, Global};
use std::test::Fail;

const HEAD: u64 = u64::MAX - 1;

fn text(alloc: Global, bytes: &[u8]) -> Result<Bytes, AllocError> {
    Bytes::from_slice(alloc, bytes)
}

fn pair(alloc: Global, name: &[u8], value: &[u8]) -> Result<Pairs, AllocError> {
    let mut pairs = Pairs::new(alloc);
    pairs.set(text(alloc, name)?, text(alloc, value)?)?;
    Ok(pairs)
}

// Nine bytes of data, the attribute `_` with three bytes, and the key `key` with five.
fn sample(alloc: Global) -> Result<ObjCopy, AllocError> {
    Ok(ObjCopy {
        bytes: text(alloc, b"123456789")?,
        attrs: pair(alloc, b"_", b"old")?,
        omap: pair(alloc, b"key", b"value")?,
        header: Bytes::new(alloc),
    })
}

fn set_attr(alloc: Global, name: &[u8], value: &[u8]) -> Result<(u64, Effect), AllocError> {
    let name = text(alloc, name)?;
    let value = text(alloc, value)?;
    Ok((HEAD, Effect::SetAttr { name, value }))
}

fn write(alloc: Global, at: u32, piece: &[u8]) -> Result<(u64, Effect), AllocError> {
    let bytes = text(alloc, piece)?;
    Ok((HEAD, Effect::Write { at, bytes }))
}

fn grows(
    alloc: Global,
    effects: Vec<(u64, Effect)>,
    wanted: Option<Growth>,
) -> Result<bool, AllocError> {
    let copy = sample(alloc)?;
    Ok(growth(&copy, effects.as_slice()) == wanted)
}

#[test]
fn data_written_and_an_attribute_replaced(rt: HostRuntime) -> Result<(), Fail> {
    let alloc = rt.alloc();
    let effects = vec![in alloc; write(alloc, 7, b"xyz")?, set_attr(alloc, b"_", b"newer")?]?;
    let wanted = Growth {
        taken: 13,
        added: 16,
    };
    assert!(rt; grows(alloc, effects, Some(wanted))?);
    Ok(())
}
