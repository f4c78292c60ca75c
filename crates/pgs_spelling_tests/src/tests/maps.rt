//! Scrub maps as bytes. The places were told by an interpreter of this format that was written apart.
use crate::tests::places::{Kind, WHOLE, of_changes, of_fronts, place};
use pgs_bytes::Bytes;
use pgs_codec::DecodeError;
use pgs_map_encoding::{decode_map, encode_map};
use std::alloc::{AllocError, Global};
use std::test::Fail;

// The map of OSD 2 for chunk 4 of scrub 3, of the families below `b` with key `k`: the clone 7 of `a`, with two attributes and both
// digests, and its head, whose data couldn't be read.
const MAP: &[u8; 157] =
    b"\x4d\x01\x02\x00\x00\x00\x03\x00\x00\x00\x00\x00\x00\x00\x04\x00\x00\x00\x00\x00\x00\x00\x05\x00\x00\x00\x00\x00\x00\x00\x06\x00\x00\x00\x00\x00\x00\x00\x00\x01\x00\x00\x00\x00\x01\x00\x00\x00\x6b\x01\x00\x00\x00\x62\x02\x00\x00\x00\x00\x00\x00\x00\x01\x00\x00\x00\x6b\x01\x00\x00\x00\x61\x07\x00\x00\x00\x00\x00\x00\x00\x0c\x03\x00\x00\x00\x00\x00\x00\x00\x02\x00\x00\x00\x01\x00\x00\x00\x5f\x02\x00\x00\x00\x78\x79\x02\x00\x00\x00\x5f\x61\x00\x00\x00\x00\x44\x33\x22\x11\x88\x77\x66\x55\x00\x00\x00\x00\x01\x00\x00\x00\x6b\x01\x00\x00\x00\x61\xfe\xff\xff\xff\xff\xff\xff\xff\x02\x09\x00\x00\x00\x00\x00\x00\x00\x00\x00\x00\x00";

const MAP_FRONTS: [usize; 158] = [
    0, 1, 2, 2, 2, 2, 6, 6, 6, 6, 6, 6, 6, 6, 14, 14, 14, 14, 14, 14, 14, 14, 22, 22, 22, 22, 22,
    22, 22, 22, 30, 30, 30, 30, 30, 30, 30, 30, 38, 39, 40, 40, 40, 40, 44, 44, 44, 44, 44, 49, 49,
    49, 49, 49, 54, 54, 54, 54, 58, 58, 58, 58, 62, 62, 62, 62, 62, 67, 67, 67, 67, 67, 72, 72, 72,
    72, 72, 72, 72, 72, 80, 81, 81, 81, 81, 81, 81, 81, 81, 89, 89, 89, 89, 93, 93, 93, 93, 93, 98,
    98, 98, 98, 98, 98, 104, 104, 104, 104, 104, 104, 110, 110, 110, 110, 114, 114, 114, 114, 118,
    118, 118, 118, 122, 122, 122, 122, 126, 126, 126, 126, 126, 131, 131, 131, 131, 131, 136, 136,
    136, 136, 136, 136, 136, 136, 144, 145, 145, 145, 145, 145, 145, 145, 145, 153, 153, 153, 153,
    255,
];

const MAP_LOW: [usize; 157] = [
    0, 1, 255, 255, 255, 255, 255, 255, 255, 255, 255, 255, 255, 255, 255, 255, 255, 255, 255, 255,
    255, 255, 255, 255, 255, 255, 255, 255, 255, 255, 255, 255, 255, 255, 255, 255, 255, 255, 39,
    39, 40, 40, 40, 40, 48, 44, 44, 44, 255, 49, 49, 49, 49, 255, 157, 157, 157, 157, 58, 58, 58,
    58, 66, 62, 62, 62, 58, 67, 67, 67, 67, 255, 255, 255, 255, 255, 255, 255, 255, 255, 80, 255,
    255, 255, 255, 255, 255, 255, 255, 114, 114, 114, 114, 97, 93, 93, 93, 255, 105, 98, 98, 98,
    255, 255, 111, 104, 104, 104, 104, 255, 123, 110, 110, 110, 255, 255, 255, 255, 255, 255, 255,
    255, 122, 122, 122, 122, 130, 126, 126, 126, 122, 131, 131, 131, 131, 122, 136, 255, 255, 255,
    255, 255, 255, 255, 144, 255, 255, 255, 255, 255, 255, 255, 255, 157, 157, 157, 157,
];

const MAP_HIGH: [usize; 157] = [
    0, 1, 255, 255, 255, 255, 255, 255, 255, 255, 255, 255, 255, 255, 255, 255, 255, 255, 255, 255,
    255, 255, 255, 255, 255, 255, 255, 255, 255, 255, 255, 255, 255, 255, 255, 255, 255, 255, 38,
    39, 40, 40, 40, 40, 44, 44, 44, 44, 44, 49, 49, 49, 49, 49, 157, 157, 157, 157, 58, 58, 58, 58,
    62, 62, 62, 62, 62, 67, 67, 67, 67, 67, 255, 255, 255, 255, 255, 255, 255, 255, 80, 255, 255,
    255, 255, 255, 255, 255, 255, 114, 114, 114, 114, 93, 93, 93, 93, 104, 98, 98, 98, 98, 255,
    255, 104, 104, 104, 104, 255, 255, 110, 110, 110, 110, 255, 255, 255, 255, 255, 255, 255, 255,
    122, 122, 122, 122, 126, 126, 126, 126, 126, 131, 131, 131, 131, 131, 255, 255, 255, 255, 255,
    255, 255, 255, 144, 255, 255, 255, 255, 255, 255, 255, 255, 157, 157, 157, 157,
];

#[test]
fn fronts_of_a_map(rt: HostRuntime) -> Result<(), Fail> {
    let wanted = MAP_FRONTS;
    let places = of_fronts(rt.alloc(), Kind::Map, MAP)?;
    assert!(rt; places.as_slice() == wanted.as_slice());
    Ok(())
}

#[test]
fn changes_of_a_map(rt: HostRuntime) -> Result<(), Fail> {
    let low = MAP_LOW;
    let high = MAP_HIGH;
    let places = of_changes(rt.alloc(), Kind::Map, MAP, 1)?;
    assert!(rt; places.as_slice() == low.as_slice());
    let places = of_changes(rt.alloc(), Kind::Map, MAP, 0x80)?;
    assert!(rt; places.as_slice() == high.as_slice());
    Ok(())
}

fn spelled_again(alloc: Global, text: &[u8]) -> Result<bool, DecodeError> {
    let map = decode_map(alloc, text)?;
    let spelled = encode_map(alloc, &map)?;
    Ok(spelled.as_slice() == text)
}

#[test]
fn a_map_is_spelled(rt: HostRuntime) {
    assert!(rt; matches!(spelled_again(rt.alloc(), MAP), Ok(true)));
}

// The map with another byte at a place.
fn with_byte(alloc: Global, at: usize, byte: u8) -> Result<Bytes, AllocError> {
    let mut changed = Vec::from_slice(alloc, MAP)?;
    if at < changed.len() {
        changed[at] = byte;
    }
    Ok(Bytes::from_vec(changed))
}

fn refused_at(alloc: Global, at: usize, byte: u8) -> Result<usize, AllocError> {
    let changed = with_byte(alloc, at, byte)?;
    place(alloc, Kind::Map, changed.as_slice())
}

// Two failures, one digest alone, a size where the size failed, and digests where the data failed.
#[test]
fn outcomes(rt: HostRuntime) -> Result<(), Fail> {
    let rows = [
        (80, 3, 80),
        (80, 4, 80),
        (80, 8, 80),
        (80, 1, 81),
        (80, 16, 80),
        (144, 14, 144),
        (144, 1, 145),
        (144, 0, WHOLE),
    ];
    for (at, byte, wanted) in rows {
        assert_eq!(rt; refused_at(rt.alloc(), at, byte)?, wanted);
    }
    Ok(())
}

// The map of OSD 0 of all families, without an entry: whole, without its last byte, with one more, and with its bounds exchanged.
const EMPTY: &[u8; 44] =
    b"\x4d\x01\0\0\0\0\x01\0\0\0\0\0\0\0\x01\0\0\0\0\0\0\0\0\0\0\0\0\0\0\0\0\0\0\0\0\0\0\0\0\x02\0\0\0\0";

const EXCHANGED: &[u8; 44] =
    b"\x4d\x01\0\0\0\0\x01\0\0\0\0\0\0\0\x01\0\0\0\0\0\0\0\0\0\0\0\0\0\0\0\0\0\0\0\0\0\0\0\x02\0\0\0\0\0";

const LONGER: &[u8; 45] =
    b"\x4d\x01\0\0\0\0\x01\0\0\0\0\0\0\0\x01\0\0\0\0\0\0\0\0\0\0\0\0\0\0\0\0\0\0\0\0\0\0\0\0\x02\0\0\0\0\0";

#[test]
fn a_map_without_an_entry(rt: HostRuntime) -> Result<(), Fail> {
    let alloc = rt.alloc();
    assert_eq!(rt; place(alloc, Kind::Map, EMPTY)?, WHOLE);
    assert_eq!(rt; place(alloc, Kind::Map, &EMPTY[..43])?, 40);
    assert_eq!(rt; place(alloc, Kind::Map, LONGER)?, 44);
    assert_eq!(rt; place(alloc, Kind::Map, EXCHANGED)?, 39);
    Ok(())
}
