use pgs_name::{HEAD, NameError, ObjectId, Part};
use std::alloc::Global;
use std::test::Fail;

#[test]
fn refusals_in_order(rt: HostRuntime) -> Result<(), Fail> {
    let long = [b'a'; 65];
    let longer = [b'a'; 256];
    let space = Part::Space;
    let key = Part::Key;
    let name = Part::Name;
    let rows = [
        (
            long.as_slice(),
            b"-".as_slice(),
            b"".as_slice(),
            0,
            NameError::NameTooLong { part: space },
        ),
        (
            b"a b".as_slice(),
            longer.as_slice(),
            b"".as_slice(),
            0,
            NameError::BadName { part: space, at: 1 },
        ),
        (
            b"-".as_slice(),
            longer.as_slice(),
            b"".as_slice(),
            0,
            NameError::BadName { part: space, at: 0 },
        ),
        (
            b"".as_slice(),
            longer.as_slice(),
            b"".as_slice(),
            0,
            NameError::NameTooLong { part: key },
        ),
        (
            b"".as_slice(),
            b"-".as_slice(),
            b"".as_slice(),
            0,
            NameError::BadName { part: key, at: 0 },
        ),
        (
            b"".as_slice(),
            b"k\x7f".as_slice(),
            b"".as_slice(),
            0,
            NameError::BadName { part: key, at: 1 },
        ),
        (
            b"".as_slice(),
            b"k".as_slice(),
            longer.as_slice(),
            0,
            NameError::NameTooLong { part: name },
        ),
        (
            b"".as_slice(),
            b"k".as_slice(),
            b"".as_slice(),
            0,
            NameError::BadName { part: name, at: 0 },
        ),
        (
            b"".as_slice(),
            b"k".as_slice(),
            b"a".as_slice(),
            0,
            NameError::BadSnap,
        ),
        (
            b"".as_slice(),
            b"k".as_slice(),
            b"a".as_slice(),
            HEAD + 1,
            NameError::BadSnap,
        ),
    ];
    for (space, key, name, snap, wanted) in rows {
        match ObjectId::new(rt.alloc(), space, key, name, snap) {
            Ok(_) => assert!(rt; false, "{wanted:?}"),
            Err(refusal) => assert_eq!(rt; refusal, wanted),
        }
    }
    Ok(())
}

// The key that a name is placed by.
fn key_of(alloc: Global, key: &[u8]) -> Result<usize, NameError> {
    let id = ObjectId::new(alloc, b"-s", key, b"a", HEAD)?;
    Ok(id.family()?.kept_key().len())
}

#[test]
fn a_key_that_is_the_name_is_kept_as_the_empty_key(rt: HostRuntime) -> Result<(), Fail> {
    let alloc = rt.alloc();
    assert_eq!(rt; key_of(alloc, b"a")?, 0);
    assert_eq!(rt; key_of(alloc, b"")?, 0);
    assert_eq!(rt; key_of(alloc, b"bc")?, 2);
    Ok(())
}
