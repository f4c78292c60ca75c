//! The words of what a write does, of its context, and of a snap.
use super::lines::is_read;
use std::alloc::{AllocError, Global};
use std::test::Fail;

// Whether a write with these words behind its object is read.
fn is_write(alloc: Global, words: &[u8]) -> Result<bool, AllocError> {
    let mut line = Vec::new(alloc);
    line.extend_from_slice(b"write 1 2 - - a ")?;
    line.extend_from_slice(words)?;
    Ok(is_read(alloc, line.as_slice()))
}

// Whether a damage of a copy of this snap is read.
fn is_damage(alloc: Global, snap: &[u8]) -> Result<bool, AllocError> {
    let mut line = Vec::new(alloc);
    line.extend_from_slice(b"damage 0 2 - - a ")?;
    line.extend_from_slice(snap)?;
    line.extend_from_slice(b" flip 0 1")?;
    Ok(is_read(alloc, line.as_slice()))
}

#[test]
fn operations_are_read(rt: HostRuntime) -> Result<(), Fail> {
    let good = [
        b"- write 4294967295 text:".as_slice(),
        b"- trunc 0".as_slice(),
        b"- attr __ hex:00".as_slice(),
        b"- rmattr _a".as_slice(),
        b"- omap - fill:65537:00".as_slice(),
        b"- rmomap a".as_slice(),
        b"- header text:".as_slice(),
        b"- remove".as_slice(),
    ];
    for words in good {
        assert!(rt; is_write(rt.alloc(), words)?);
    }
    Ok(())
}

#[test]
fn other_operations_are_refused(rt: HostRuntime) -> Result<(), Fail> {
    let bad = [
        b"- write text:a".as_slice(),
        b"- trunc 4294967296".as_slice(),
        b"- attr a text:a".as_slice(),
        b"- attr _a".as_slice(),
        b"- rmattr _".as_slice(),
        b"- omap  text:a".as_slice(),
        b"- header".as_slice(),
        b"- remove a".as_slice(),
        b"- trim 1".as_slice(),
    ];
    for words in bad {
        assert!(rt; !is_write(rt.alloc(), words)?);
    }
    Ok(())
}

#[test]
fn contexts_are_read(rt: HostRuntime) -> Result<(), Fail> {
    let good = [
        b"0 remove".as_slice(),
        b"0:0 remove".as_slice(),
        b"4294967295:1,1,4294967295 remove".as_slice(),
    ];
    for words in good {
        assert!(rt; is_write(rt.alloc(), words)?);
    }
    let bad = [
        b"-:1 remove".as_slice(),
        b"5: remove".as_slice(),
        b"5:1, remove".as_slice(),
        b"5:1:2 remove".as_slice(),
        b"5:4294967296 remove".as_slice(),
    ];
    for words in bad {
        assert!(rt; !is_write(rt.alloc(), words)?);
    }
    Ok(())
}

#[test]
fn snaps_are_read(rt: HostRuntime) -> Result<(), Fail> {
    let alloc = rt.alloc();
    assert!(rt; is_damage(alloc, b"1")? && is_damage(alloc, b"4294967295")?);
    assert!(rt; !is_damage(alloc, b"0")? && !is_damage(alloc, b"-")?);
    Ok(())
}
