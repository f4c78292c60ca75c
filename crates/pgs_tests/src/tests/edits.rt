use pgs_bytes::Bytes;
use pgs_copy::{Effect, ObjCopy, Pairs, apply_effects};
use std::alloc::{AllocError, Global};
use std::collections::BTreeMap;
use std::test::Fail;

const HEAD: u64 = u64::MAX - 1;

type Copies = BTreeMap<u64, ObjCopy>;

fn text(alloc: Global, bytes: &[u8]) -> Result<Bytes, AllocError> {
    Bytes::from_slice(alloc, bytes)
}

#[test]
fn pieces_written_over_a_text(rt: HostRuntime) -> Result<(), Fail> {
    let rows = [
        (1, b"xy".as_slice(), b"axy".as_slice()),
        (2, b"yz".as_slice(), b"abyz".as_slice()),
        (5, b"z".as_slice(), b"abc\0\0z".as_slice()),
        (2, b"".as_slice(), b"abc".as_slice()),
        (4, b"".as_slice(), b"abc\0".as_slice()),
    ];
    for (at, piece, wanted) in rows {
        let mut bytes = text(rt.alloc(), b"abc")?;
        bytes.write(at, piece)?;
        assert_eq!(rt; bytes.as_slice(), wanted);
    }
    Ok(())
}

#[test]
fn texts_cut_and_filled_up(rt: HostRuntime) -> Result<(), Fail> {
    let rows = [
        (0, b"".as_slice()),
        (2, b"ab".as_slice()),
        (3, b"abc".as_slice()),
        (5, b"abc\0\0".as_slice()),
    ];
    for (len, wanted) in rows {
        let mut bytes = text(rt.alloc(), b"abc")?;
        bytes.resize(len)?;
        assert_eq!(rt; bytes.as_slice(), wanted);
    }
    Ok(())
}

// The names `b` and `a` with values of one byte, of which that of `b` was put twice.
fn two_pairs(alloc: Global) -> Result<Pairs, AllocError> {
    let mut pairs = Pairs::new(alloc);
    pairs.set(text(alloc, b"b")?, text(alloc, b"old")?)?;
    pairs.set(text(alloc, b"a")?, text(alloc, b"1")?)?;
    pairs.set(text(alloc, b"b")?, text(alloc, b"2")?)?;
    Ok(pairs)
}

fn is_at(alloc: Global, pairs: &Pairs, name: &[u8], value: &[u8]) -> Result<bool, AllocError> {
    let name = text(alloc, name)?;
    match pairs.get(&name) {
        Some(found) => Ok(found.as_slice() == value),
        None => Ok(false),
    }
}

#[test]
fn pairs_set_replaced_and_taken_away(rt: HostRuntime) -> Result<(), Fail> {
    let alloc = rt.alloc();
    let mut pairs = two_pairs(alloc)?;
    assert_eq!(rt; pairs.size(), Some(4));
    assert!(rt; is_at(alloc, &pairs, b"b", b"2")?);
    let name = text(alloc, b"b")?;
    if pairs.get(&name).is_some() {
        pairs.replace(&name, text(alloc, b"three")?);
    }
    assert_eq!(rt; pairs.size(), Some(8));
    assert!(rt; is_at(alloc, &pairs, b"b", b"three")?);
    pairs.remove(&name);
    assert_eq!(rt; pairs.size(), Some(2));
    assert!(rt; is_at(alloc, &pairs, b"a", b"1")?);
    Ok(())
}

fn data_set(alloc: Global, bytes: &[u8]) -> Result<Effect, AllocError> {
    let bytes = text(alloc, bytes)?;
    Ok(Effect::SetData { bytes })
}

fn data_written(alloc: Global, at: u32, bytes: &[u8]) -> Result<Effect, AllocError> {
    let bytes = text(alloc, bytes)?;
    Ok(Effect::Write { at, bytes })
}

fn attr(alloc: Global, name: &[u8], value: &[u8]) -> Result<Effect, AllocError> {
    let name = text(alloc, name)?;
    let value = text(alloc, value)?;
    Ok(Effect::SetAttr { name, value })
}

fn no_attr(alloc: Global, name: &[u8]) -> Result<Effect, AllocError> {
    let name = text(alloc, name)?;
    Ok(Effect::RmAttr { name })
}

fn key(alloc: Global, key: &[u8], value: &[u8]) -> Result<Effect, AllocError> {
    let key = text(alloc, key)?;
    let value = text(alloc, value)?;
    Ok(Effect::SetOmap { key, value })
}

fn no_key(alloc: Global, key: &[u8]) -> Result<Effect, AllocError> {
    let key = text(alloc, key)?;
    Ok(Effect::RmOmap { key })
}

fn header(alloc: Global, bytes: &[u8]) -> Result<Effect, AllocError> {
    let bytes = text(alloc, bytes)?;
    Ok(Effect::SetHeader { bytes })
}

fn clone_with(alloc: Global, info: &[u8]) -> Result<Effect, AllocError> {
    let info = text(alloc, info)?;
    Ok(Effect::Clone { info })
}

fn empty_installed(alloc: Global) -> Effect {
    let copy = ObjCopy::new(alloc);
    Effect::Install { copy }
}

// A head with the data `abc`, an info, the snapset, a key and a header.
fn made_head(alloc: Global) -> Result<Vec<(u64, Effect)>, AllocError> {
    let effects = vec![in alloc;
        (HEAD, Effect::Clear),
        (HEAD, data_set(alloc, b"ab")?),
        (HEAD, data_written(alloc, 2, b"cde")?),
        (HEAD, Effect::Truncate { size: 3 }),
        (HEAD, attr(alloc, b"_", b"head")?),
        (HEAD, attr(alloc, b"snapset", b"s")?),
        (HEAD, key(alloc, b"k", b"v")?),
        (HEAD, header(alloc, b"h")?),
    ]?;
    Ok(effects)
}

// A clone of it, and what is made and taken away again.
fn made_clone(alloc: Global) -> Result<Vec<(u64, Effect)>, AllocError> {
    let effects = vec![in alloc;
        (3, clone_with(alloc, b"clone")?),
        (5, empty_installed(alloc)),
        (6, empty_installed(alloc)),
        (6, Effect::Remove),
        (HEAD, no_key(alloc, b"k")?),
    ]?;
    Ok(effects)
}

// A change in place: another attribute, and then the info and the snapset that are there.
fn changed_head(alloc: Global) -> Result<Vec<(u64, Effect)>, AllocError> {
    let effects = vec![in alloc;
        (HEAD, no_attr(alloc, b"_x")?),
        (HEAD, attr(alloc, b"_", b"newer")?),
        (HEAD, attr(alloc, b"snapset", b"t")?),
    ]?;
    Ok(effects)
}

fn copies_made(alloc: Global) -> Result<Copies, AllocError> {
    let mut copies = BTreeMap::new(alloc);
    apply_effects(alloc, &mut copies, made_head(alloc)?.as_slice())?;
    apply_effects(alloc, &mut copies, made_clone(alloc)?.as_slice())?;
    apply_effects(alloc, &mut copies, changed_head(alloc)?.as_slice())?;
    Ok(copies)
}

// The data of a copy, its size and whether it has an info and a snapset of these values.
fn looks(
    alloc: Global,
    copy: &ObjCopy,
    size: u64,
    info: &[u8],
    snapset: &[u8],
) -> Result<bool, AllocError> {
    let named = is_at(alloc, &copy.attrs, b"_", info)?;
    let listed = is_at(alloc, &copy.attrs, b"snapset", snapset)?;
    Ok(
        copy.bytes.as_slice() == b"abc".as_slice()
            && copy.size() == Some(size)
            && named
            && listed == !snapset.is_empty(),
    )
}

#[test]
fn effects_of_each_kind(rt: HostRuntime) -> Result<(), Fail> {
    let alloc = rt.alloc();
    let copies = copies_made(alloc)?;
    let head = copies.get(&HEAD).ok_or("a head")?;
    assert!(rt; looks(alloc, head, 18, b"newer", b"t")?);
    let clone = copies.get(&3).ok_or("a clone")?;
    assert!(rt; looks(alloc, clone, 12, b"clone", b"")?);
    assert_eq!(rt; copies.contains_key(&5), true);
    assert_eq!(rt; copies.contains_key(&6), false);
    Ok(())
}
