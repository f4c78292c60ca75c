ghost use Rattle.std.specs.Prelude.{IfOk};
ghost use Rattle.pgs_exchange.specs.Checked.{IsMap};
ghost use Rattle.pgs_exchange.specs.Deposits.{IsWhole};

use crate::{Deposit, DepositError, EncodedMap, Handed, check_deposit, open_deposit, open_whole};
use pgs_bytes::Bytes;
use pgs_chunk::Ask;
use pgs_map::ScrubMap;
use pgs_range::{Bound, FamilyRange};
use sqlite_items::Items;
use std::alloc::{AllocError, Global};
use std::test::Fail;

// The map of OSD 2 for chunk 4 of scrub 3, of all families, where item 5 was needed and 6 applied, without an entry.
const MAP: &[u8; 44] =
    b"\x4d\x01\x02\0\0\0\x03\0\0\0\0\0\0\0\x04\0\0\0\0\0\0\0\x05\0\0\0\0\0\0\0\x06\0\0\0\0\0\0\0\0\x02\0\0\0\0";

fn all() -> FamilyRange {
    FamilyRange {
        from: Bound::Min,
        to: Bound::Max,
    }
}

fn ask(chunk: u64, needed: u64, range: FamilyRange) -> Ask {
    Ask {
        serial: 3,
        chunk,
        range,
        needed,
        deep: true,
    }
}

fn deposit_of(text: Bytes) -> Deposit
    ensures { IsMap result.found }
{
    Deposit {
        osd: 2,
        serial: 3,
        chunk: 4,
        applied: 6,
        place: 9,
        found: Handed::Map { text },
    }
}

fn deposit(alloc: Global, text: &[u8]) -> Result<Deposit, AllocError>
    ensures { IfOk result (λ d. IsMap d.found) }
{
    let text = Bytes::from_slice(alloc, text)?;
    Ok(deposit_of(text))
}

// How many entries a map has.
fn entries(map: ScrubMap) -> usize {
    map.entries.len()
}

// What an answer comes to: a word and a number.
fn said(answer: Result<ScrubMap, DepositError>) -> (&'static str, usize) {
    match answer {
        Ok(map) => ("map", entries(map)),
        Err(DepositError::Stale { chunk_now: None }) => ("stale none", 0),
        Err(
            DepositError::Stale {
                chunk_now: Some(chunk),
            },
        ) => ("stale", chunk as usize),
        Err(DepositError::Early { needed, .. }) => ("early", needed as usize),
        Err(DepositError::BadMap { at }) => ("bad", at),
        Err(DepositError::Memory) => ("memory", 0),
    }
}

fn checked(
    alloc: Global,
    asked: Option<&Ask>,
    text: &[u8],
) -> Result<(&'static str, usize), AllocError> {
    let deposit = deposit(alloc, text)?;
    Ok(said(check_deposit(alloc, asked, &deposit)))
}

#[test]
fn a_deposit_that_was_asked_for(rt: HostRuntime) -> Result<(), Fail> {
    let alloc = rt.alloc();
    let own = ask(4, 6, all());
    assert_eq!(rt; checked(alloc, Some(&own), MAP)?, ("map", 0));
    assert_eq!(rt; checked(alloc, None, MAP)?, ("stale none", 0));
    Ok(())
}

// One of another chunk is stale, and one that applied too little early, whatever its bytes are.
#[test]
fn what_is_refused_first(rt: HostRuntime) -> Result<(), Fail> {
    let alloc = rt.alloc();
    let later = ask(5, 7, all());
    assert_eq!(rt; checked(alloc, Some(&later), &MAP[..1])?, ("stale", 5));
    let needed = ask(4, 7, all());
    assert_eq!(rt; checked(alloc, Some(&needed), &MAP[..1])?, ("early", 7));
    Ok(())
}

// The first field that isn't whole.
const FRONTS: [usize; 44] = [
    0, 1, 2, 2, 2, 2, 6, 6, 6, 6, 6, 6, 6, 6, 14, 14, 14, 14, 14, 14, 14, 14, 22, 22, 22, 22, 22,
    22, 22, 22, 30, 30, 30, 30, 30, 30, 30, 30, 38, 39, 40, 40, 40, 40,
];

#[test]
fn fronts(rt: HostRuntime) -> Result<(), Fail> {
    let alloc = rt.alloc();
    let own = ask(4, 6, all());
    let wanted = FRONTS;
    for length in 0..44 {
        assert_eq!(rt;
            checked(alloc, Some(&own), &MAP[..length])?,
            ("bad", wanted[length])
        );
    }
    Ok(())
}

// A whole map of another chunk, and of another range than was asked for.
const OF_CHUNK_1: &[u8; 44] =
    b"\x4d\x01\x02\0\0\0\x03\0\0\0\0\0\0\0\x01\0\0\0\0\0\0\0\x05\0\0\0\0\0\0\0\x06\0\0\0\0\0\0\0\0\x02\0\0\0\0";

#[test]
fn whole_maps_of_something_else(rt: HostRuntime) -> Result<(), Fail> {
    let alloc = rt.alloc();
    let own = ask(4, 6, all());
    assert_eq!(rt; checked(alloc, Some(&own), OF_CHUNK_1)?, ("bad", 14));
    let from = ask(
        4,
        6,
        FamilyRange {
            from: Bound::Max,
            to: Bound::Max,
        },
    );
    assert_eq!(rt; checked(alloc, Some(&from), MAP)?, ("bad", 38));
    let to = ask(
        4,
        6,
        FamilyRange {
            from: Bound::Min,
            to: Bound::Min,
        },
    );
    assert_eq!(rt; checked(alloc, Some(&to), MAP)?, ("bad", 39));
    Ok(())
}

// The map as its fields.
fn map(alloc: Global) -> ScrubMap {
    ScrubMap {
        osd: 2,
        serial: 3,
        chunk: 4,
        needed: 5,
        applied: 6,
        range: all(),
        entries: Items::new(alloc),
    }
}

fn encoded(alloc: Global) -> Result<Bytes, AllocError> {
    let encoded = EncodedMap::new(alloc, &map(alloc))?;
    Ok(encoded.into_text())
}

// The place that an opened deposit tells.
fn place(alloc: Global) -> Result<Option<u64>, AllocError> {
    match open_deposit(alloc, deposit(alloc, MAP)?) {
        Ok(told) => Ok(Some(told.place)),
        Err(_) => Ok(None),
    }
}

fn fault() -> Deposit
    ensures { IsWhole result }
{
    Deposit {
        osd: 2,
        serial: 3,
        chunk: 4,
        applied: 6,
        place: 9,
        found: Handed::ListFault { count: 1 },
    }
}

fn chunk_of_fault(alloc: Global) -> Result<u64, AllocError> {
    let told = open_whole(alloc, fault())?;
    Ok(told.chunk)
}

#[test]
fn encoded_and_opened(rt: HostRuntime) -> Result<(), Fail> {
    let alloc = rt.alloc();
    assert!(rt; encoded(alloc)?.as_slice() == MAP.as_slice());
    assert_eq!(rt; place(alloc)?, Some(9));
    assert_eq!(rt; chunk_of_fault(alloc)?, 4);
    Ok(())
}
