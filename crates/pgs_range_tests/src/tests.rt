use pgs_bytes::Bytes;
use pgs_name::{Family, HEAD, NameError, ObjectId, compare, is_before, reverse_bits};
use pgs_range::{Bound, Cursor, FamilyRange, compare_bounds, is_within, split};
use std::alloc::{AllocError, Global};
use std::cmp::Ordering;
use std::test::Fail;

fn position(alloc: Global, key: &[u8], name: &[u8], snap: u64) -> Result<ObjectId, NameError> {
    ObjectId::new(alloc, b"", key, name, snap)
}

fn family(alloc: Global, key: &[u8], name: &[u8]) -> Result<Family, AllocError> {
    let key = Bytes::from_slice(alloc, key)?;
    let name = Bytes::from_slice(alloc, name)?;
    Family::new(Bytes::new(alloc), key, name)
}

fn whole() -> FamilyRange {
    FamilyRange {
        from: Bound::Min,
        to: Bound::Max,
    }
}

// The order of the names is a, b, d, c, and a family with the key b stands at b.
#[test]
fn positions_in_order(rt: HostRuntime) -> Result<(), Fail> {
    let alloc = rt.alloc();
    let rows = [
        (b"a".as_slice(), b"a".as_slice(), 4),
        (b"".as_slice(), b"a".as_slice(), HEAD),
        (b"b".as_slice(), b"a".as_slice(), 3),
        (b"".as_slice(), b"b".as_slice(), 1),
        (b"".as_slice(), b"b".as_slice(), HEAD),
        (b"".as_slice(), b"d".as_slice(), 2),
        (b"".as_slice(), b"c".as_slice(), 2),
    ];
    let mut last = position(alloc, b"", b"a", 3)?;
    for (key, name, snap) in rows {
        let next = position(alloc, key, name, snap)?;
        assert!(rt; is_before(&last, &next));
        assert!(rt; compare(&next, &last) == Ordering::Greater);
        last = next;
    }
    Ok(())
}

// A key that is the name is written as an empty one.
#[test]
fn a_key_that_is_the_name(rt: HostRuntime) -> Result<(), Fail> {
    let given = family(rt.alloc(), b"a", b"a")?;
    assert!(rt; given.space().is_empty());
    assert!(rt; given.kept_key().is_empty());
    assert!(rt; given.key() == given.name());
    Ok(())
}

#[test]
fn one_family_of_both_spellings(rt: HostRuntime) -> Result<(), Fail> {
    let given = family(rt.alloc(), b"a", b"a")?;
    let plain = family(rt.alloc(), b"", b"a")?;
    assert!(rt; given == plain);
    assert_eq!(rt; reverse_bits(given.hash()), reverse_bits(plain.hash()));
    Ok(())
}

#[test]
fn a_range_is_parted_at_a_family(rt: HostRuntime) -> Result<(), Fail> {
    let alloc = rt.alloc();
    let bound = Bound::At {
        family: family(alloc, b"", b"b")?,
    };
    assert!(rt; is_within(&bound, &whole()));
    assert!(rt; compare_bounds(&bound, &Bound::Max) == Ordering::Less);
    let (first, second) = split(whole(), bound)?;
    let rows = [
        (b"a".as_slice(), true),
        (b"b".as_slice(), false),
        (b"c".as_slice(), false),
    ];
    for (name, before) in rows {
        let family = family(alloc, b"", name)?;
        assert_eq!(rt; first.in_range(&family), before);
        assert_eq!(rt; second.in_range(&family), !before);
    }
    Ok(())
}

fn behind_a_clone(alloc: Global) -> Result<Cursor, NameError> {
    let id = position(alloc, b"", b"b", 1)?;
    Ok(Cursor::After { id })
}

#[test]
fn a_listing_goes_on_behind_a_position(rt: HostRuntime) -> Result<(), Fail> {
    let cursor = behind_a_clone(rt.alloc())?;
    let head = position(rt.alloc(), b"", b"b", HEAD)?.clone()?;
    assert!(rt; cursor.is_behind(&head));
    Ok(())
}

#[test]
fn a_listing_gives_no_position_twice(rt: HostRuntime) -> Result<(), Fail> {
    let cursor = behind_a_clone(rt.alloc())?;
    let clone = position(rt.alloc(), b"", b"b", 1)?;
    assert!(rt; !cursor.is_behind(&clone));
    Ok(())
}

#[test]
fn a_position_gives_its_family(rt: HostRuntime) -> Result<(), Fail> {
    let family = position(rt.alloc(), b"k", b"b", 1)?.family()?;
    assert!(rt; family.key() == b"k".as_slice());
    Ok(())
}

fn hash_of(alloc: Global, space: &[u8], key: &[u8], name: &[u8]) -> Result<u32, AllocError> {
    let space = Bytes::from_slice(alloc, space)?;
    let key = Bytes::from_slice(alloc, key)?;
    let name = Bytes::from_slice(alloc, name)?;
    Ok(Family::new(space, key, name)?.hash())
}

// The words were computed by the published algorithm of CRC-32C, without its last inversion.
#[test]
fn hashes(rt: HostRuntime) -> Result<(), Fail> {
    let alloc = rt.alloc();
    assert_eq!(rt; hash_of(alloc, b"", b"", b"a")?, 0x458F_6330);
    assert_eq!(rt; hash_of(alloc, b"s", b"", b"a")?, 0x6827_71AC);
    assert_eq!(rt; hash_of(alloc, b"", b"b", b"a")?, 0x56DF_90C4);
    assert_eq!(rt; hash_of(alloc, b"", b"", b"b")?, 0x56DF_90C4);
    Ok(())
}

#[test]
fn bits_in_the_other_order(rt: HostRuntime) -> Result<(), Fail> {
    assert_eq!(rt; reverse_bits(1), 0x8000_0000);
    assert_eq!(rt; reverse_bits(0x1234_5678), 0x1E6A_2C48);
    assert_eq!(rt; reverse_bits(0xFFFF_FFFE), 0x7FFF_FFFF);
    Ok(())
}
