use crate::tests::log::making::{family, write};
use pgs_op::{CleanStore, LOG_MAX, WriteError, make_effects};
use pgs_request::Version;
use std::alloc::{AllocError, Global};
use std::test::Fail;

const VERSION: Version = Version {
    epoch: 4,
    number: 1,
};

// Makes a write's effects and applies them.
fn accept(
    alloc: Global,
    clean: &mut CleanStore,
    log_bytes: u64,
    name: &[u8],
    count: u32,
) -> Result<usize, WriteError> {
    let write = write(alloc, name, count)?;
    let effects = make_effects(alloc, clean, log_bytes.min(LOG_MAX), &write, VERSION)?;
    clean.apply(alloc, &write.family, effects.as_slice())?;
    Ok(effects.len())
}

// Whether the head of a name, with so many bytes of data, is all that a store holds.
fn holds(alloc: Global, clean: &CleanStore, name: &[u8], bytes: u64) -> Result<bool, AllocError> {
    let family = family(alloc, b"", b"", name)?;
    match clean.head(&family) {
        Some(head) => { Ok(head.bytes.len() as u64 == bytes && head.size() == Some(clean.held())) }
        None => Ok(false),
    }
}

// Where no head is, an empty one is made before it takes its data; its info and its snapset are recorded each time.
#[test]
fn a_first_and_a_second_write(rt: HostRuntime) -> Result<(), Fail> {
    let mut clean = CleanStore::new(rt.alloc());
    assert!(rt; accept(rt.alloc(), &mut clean, 0, b"x", 3) == Ok(4));
    assert!(rt; holds(rt.alloc(), &clean, b"x", 3)?);
    assert!(rt; accept(rt.alloc(), &mut clean, 3, b"x", 2) == Ok(3));
    assert!(rt; holds(rt.alloc(), &clean, b"x", 2)?);
    assert!(rt; !holds(rt.alloc(), &clean, b"y", 0)?);
    Ok(())
}
