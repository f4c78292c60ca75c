//! Where cut and changed texts are refused. The places were told by an interpreter of these formats that was written apart.
use pgs_bytes::Bytes;
use pgs_codec::DecodeError;
use pgs_info::ObjectInfo;
use pgs_map::ScrubMap;
use pgs_map_encoding::decode_map;
use pgs_snapset::SnapSet;
use std::alloc::{AllocError, Global};
use std::test::Fail;

// In place of a place: the text is whole.
pub const WHOLE: usize = 255;

#[derive(Clone, Copy)]
pub enum Kind {
    Info,
    SnapSet,
    Map,
}

// The clone 7 of `obj` with key `k` in the space `ns`, a whiteout with both digests.
const INFO: &[u8; 69] =
    b"\x49\x01\x02\x00\x00\x00\x6e\x73\x01\x00\x00\x00\x6b\x03\x00\x00\x00\x6f\x62\x6a\x07\x00\x00\x00\x00\x00\x00\x00\x03\x00\x00\x00\x05\x00\x00\x00\x00\x00\x00\x00\x02\x00\x00\x00\x04\x00\x00\x00\x00\x00\x00\x00\xe8\x03\x00\x00\x00\x00\x00\x00\x07\x44\x33\x22\x11\x88\x77\x66\x55";

// Two clones, with two snaps and with one.
const SNAPSET: &[u8; 78] =
    b"\x53\x01\x09\x00\x00\x00\x00\x00\x00\x00\x02\x00\x00\x00\x04\x00\x00\x00\x00\x00\x00\x00\x64\x00\x00\x00\x00\x00\x00\x00\x02\x00\x00\x00\x04\x00\x00\x00\x00\x00\x00\x00\x02\x00\x00\x00\x00\x00\x00\x00\x09\x00\x00\x00\x00\x00\x00\x00\x00\x00\x00\x00\x00\x00\x00\x00\x01\x00\x00\x00\x08\x00\x00\x00\x00\x00\x00\x00";

// The place at which a text is refused.
pub fn place(alloc: Global, kind: Kind, text: &[u8]) -> Result<usize, AllocError> {
    match kind {
        Kind::Info => info_place(ObjectInfo::decode(alloc, text)),
        Kind::SnapSet => snapset_place(SnapSet::decode(alloc, text)),
        Kind::Map => map_place(decode_map(alloc, text)),
    }
}

fn info_place(decoded: Result<ObjectInfo, DecodeError>) -> Result<usize, AllocError> {
    match decoded {
        Ok(_) => Ok(WHOLE),
        Err(DecodeError::Corrupt { at }) => Ok(at),
        Err(DecodeError::Memory) => Err(AllocError),
    }
}

fn snapset_place(decoded: Result<SnapSet, DecodeError>) -> Result<usize, AllocError> {
    match decoded {
        Ok(_) => Ok(WHOLE),
        Err(DecodeError::Corrupt { at }) => Ok(at),
        Err(DecodeError::Memory) => Err(AllocError),
    }
}

fn map_place(decoded: Result<ScrubMap, DecodeError>) -> Result<usize, AllocError> {
    match decoded {
        Ok(_) => Ok(WHOLE),
        Err(DecodeError::Corrupt { at }) => Ok(at),
        Err(DecodeError::Memory) => Err(AllocError),
    }
}

// The places of the text's fronts, the shortest first, and of the whole text.
pub fn of_fronts(alloc: Global, kind: Kind, text: &[u8]) -> Result<Vec<usize>, AllocError> {
    let mut places = Vec::new(alloc);
    for length in 0..text.len() {
        let (front, _) = text.split_at(length);
        let at = place(alloc, kind, front)?;
        places.push(at)?;
    }
    let at = place(alloc, kind, text)?;
    places.push(at)?;
    Ok(places)
}

fn with_change(alloc: Global, text: &[u8], at: usize, bits: u8) -> Result<Bytes, AllocError> {
    let mut changed = Vec::from_slice(alloc, text)?;
    if at < changed.len() {
        changed[at] ^= bits;
    }
    Ok(Bytes::from_vec(changed))
}

// The places of the text with these bits of one byte changed, the first byte first.
pub fn of_changes(
    alloc: Global,
    kind: Kind,
    text: &[u8],
    bits: u8,
) -> Result<Vec<usize>, AllocError> {
    let mut places = Vec::new(alloc);
    for at in 0..text.len() {
        let changed = with_change(alloc, text, at, bits)?;
        let at = place(alloc, kind, changed.as_slice())?;
        places.push(at)?;
    }
    Ok(places)
}

const INFO_FRONTS: [usize; 70] = [
    0, 1, 2, 2, 2, 2, 2, 2, 8, 8, 8, 8, 8, 13, 13, 13, 13, 13, 13, 13, 20, 20, 20, 20, 20, 20, 20,
    20, 28, 28, 28, 28, 32, 32, 32, 32, 32, 32, 32, 32, 40, 40, 40, 40, 44, 44, 44, 44, 44, 44, 44,
    44, 52, 52, 52, 52, 52, 52, 52, 52, 60, 61, 61, 61, 61, 65, 65, 65, 65, 255,
];

const INFO_LOW: [usize; 69] = [
    0, 1, 2, 2, 2, 2, 255, 255, 12, 8, 8, 8, 255, 60, 13, 13, 13, 255, 255, 255, 255, 255, 255,
    255, 255, 255, 255, 255, 255, 255, 255, 255, 255, 255, 255, 255, 255, 255, 255, 255, 255, 255,
    255, 255, 255, 255, 255, 255, 255, 255, 255, 255, 255, 255, 255, 255, 255, 255, 255, 255, 255,
    255, 255, 255, 255, 255, 255, 255, 255,
];

const INFO_HIGH: [usize; 69] = [
    0, 1, 2, 2, 2, 2, 2, 2, 8, 8, 8, 8, 8, 13, 13, 13, 13, 13, 13, 13, 255, 255, 255, 255, 255,
    255, 255, 255, 255, 255, 255, 255, 255, 255, 255, 255, 255, 255, 255, 255, 255, 255, 255, 255,
    255, 255, 255, 255, 255, 255, 255, 255, 255, 255, 255, 255, 255, 255, 255, 255, 60, 255, 255,
    255, 255, 255, 255, 255, 255,
];

const SNAPSET_FRONTS: [usize; 79] = [
    0, 1, 2, 2, 2, 2, 2, 2, 2, 2, 10, 10, 10, 10, 14, 14, 14, 14, 14, 14, 14, 14, 22, 22, 22, 22,
    22, 22, 22, 22, 30, 30, 30, 30, 34, 34, 34, 34, 34, 34, 34, 34, 42, 42, 42, 42, 42, 42, 42, 42,
    50, 50, 50, 50, 50, 50, 50, 50, 58, 58, 58, 58, 58, 58, 58, 58, 66, 66, 66, 66, 70, 70, 70, 70,
    70, 70, 70, 70, 255,
];

const SNAPSET_LOW: [usize; 78] = [
    0, 1, 255, 255, 255, 255, 255, 255, 255, 255, 78, 78, 78, 78, 255, 255, 255, 255, 255, 255,
    255, 255, 255, 255, 255, 255, 255, 255, 255, 255, 255, 74, 74, 74, 255, 255, 255, 255, 255,
    255, 255, 255, 255, 255, 255, 255, 255, 255, 255, 255, 255, 255, 255, 255, 255, 255, 255, 255,
    255, 255, 255, 255, 255, 255, 255, 255, 70, 78, 78, 78, 255, 255, 255, 255, 255, 255, 255, 255,
];

const SNAPSET_HIGH: [usize; 78] = [
    0, 1, 255, 255, 255, 255, 255, 255, 255, 255, 78, 78, 78, 78, 255, 255, 255, 255, 255, 255,
    255, 255, 255, 255, 255, 255, 255, 255, 255, 255, 74, 74, 74, 74, 255, 255, 255, 255, 255, 255,
    255, 255, 255, 255, 255, 255, 255, 255, 255, 255, 255, 255, 255, 255, 255, 255, 255, 255, 255,
    255, 255, 255, 255, 255, 255, 255, 78, 78, 78, 78, 255, 255, 255, 255, 255, 255, 255, 255,
];

#[test]
fn fronts_of_an_info(rt: HostRuntime) -> Result<(), Fail> {
    let wanted = INFO_FRONTS;
    let places = of_fronts(rt.alloc(), Kind::Info, INFO)?;
    assert!(rt; places.as_slice() == wanted.as_slice());
    Ok(())
}

#[test]
fn changes_of_an_info(rt: HostRuntime) -> Result<(), Fail> {
    let low = INFO_LOW;
    let high = INFO_HIGH;
    let places = of_changes(rt.alloc(), Kind::Info, INFO, 1)?;
    assert!(rt; places.as_slice() == low.as_slice());
    let places = of_changes(rt.alloc(), Kind::Info, INFO, 0x80)?;
    assert!(rt; places.as_slice() == high.as_slice());
    Ok(())
}

#[test]
fn fronts_of_a_snapset(rt: HostRuntime) -> Result<(), Fail> {
    let wanted = SNAPSET_FRONTS;
    let places = of_fronts(rt.alloc(), Kind::SnapSet, SNAPSET)?;
    assert!(rt; places.as_slice() == wanted.as_slice());
    Ok(())
}

#[test]
fn changes_of_a_snapset(rt: HostRuntime) -> Result<(), Fail> {
    let low = SNAPSET_LOW;
    let high = SNAPSET_HIGH;
    let places = of_changes(rt.alloc(), Kind::SnapSet, SNAPSET, 1)?;
    assert!(rt; places.as_slice() == low.as_slice());
    let places = of_changes(rt.alloc(), Kind::SnapSet, SNAPSET, 0x80)?;
    assert!(rt; places.as_slice() == high.as_slice());
    Ok(())
}
