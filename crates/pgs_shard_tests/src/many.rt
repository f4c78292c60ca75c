//! Many positions, compared with a sort of plain rows.
use pgs_bytes::Bytes;
use pgs_copy::Effect;
use pgs_crc::{Crc, Tables};
use pgs_medium::{Item, Medium, RamMedium};
use pgs_name::{Family, HEAD, ObjectId};
use pgs_range::{Bound, Cursor};
use sqlite_items::Items;
use std::alloc::{AllocError, Global};
use std::test::Fail;

// The place, and then space, key, name and snap.
type Row = (u32, u64, u64, u64, u64);

// A text of at most 8 bytes as a number that keeps the order of texts.
fn packed(text: &[u8]) -> u64 {
    let mut word = 0u64;
    for at in 0..8usize {
        let byte = match text.get(at) {
            Some(byte) => *byte,
            None => 0,
        };
        word = (word << 8) | u64::from(byte);
    }
    word
}

fn place(tables: &Tables<1>, space: &[u8], key: &[u8]) -> u32 {
    let mut digest = Crc::start();
    digest.update(tables, space);
    digest.update(tables, &[0x1F]);
    digest.update(tables, key);
    digest.value().reverse_bits()
}

fn row(tables: &Tables<1>, family: &Family, snap: u64) -> Row {
    let place = place(tables, family.space(), family.key());
    (
        place,
        packed(family.space()),
        packed(family.key()),
        packed(family.name()),
        snap,
    )
}

// The next number of a sequence.
fn step(number: u64) -> u64 {
    number
        .wrapping_mul(6364136223846793005)
        .wrapping_add(1442695040888963407)
}

// A letter and a digit by a number.
fn word(alloc: Global, letter: u8, number: u64) -> Result<Bytes, AllocError> {
    let digits = b"0123456789".as_slice();
    let tens = digits[(number / 10 % 10) as usize];
    let ones = digits[(number % 10) as usize];
    Bytes::from_slice(alloc, [letter, tens, ones].as_slice())
}

// One of 100 names, with one of 3 keys or none, in one of 2 spaces.
fn family(alloc: Global, number: u64) -> Result<Family, AllocError> {
    let space = if number % 2 == 0 {
        Bytes::new(alloc)
    } else {
        word(alloc, b's', 0)?
    };
    let key = if number / 2 % 4 == 0 {
        Bytes::new(alloc)
    } else {
        word(alloc, b'k', number / 2 % 4)?
    };
    let name = word(alloc, b'n', number / 8 % 100)?;
    Family::new(space, key, name)
}

fn snap(number: u64) -> u64 {
    let snap = number / 1000 % 6;
    if snap == 0 { HEAD } else { snap }
}

fn write<M: Medium>(alloc: Global, medium: &mut M, family: Family, snap: u64) -> Result<(), Fail> {
    let mut effects = Items::new(alloc);
    effects.push((snap, Effect::Clear))?;
    let item = Item {
        number: 1,
        epoch: 1,
        family,
        effects,
    };
    medium.write(&item).ok().ok_or("written")?;
    Ok(())
}

// Writes copies at so many positions, and gives their rows, sorted and each once.
fn written<M: Medium>(
    alloc: Global,
    tables: &Tables<1>,
    medium: &mut M,
    count: u64,
) -> Result<Vec<Row>, Fail> {
    let mut rows = Vec::new(alloc);
    let mut number = 1u64;
    for _ in 0..count {
        number = step(number);
        let family = family(alloc, number >> 33)?;
        let snap = snap(number >> 33);
        rows.push(row(tables, &family, snap))?;
        write(alloc, medium, family, snap)?;
    }
    rows.sort()?;
    rows.dedup();
    Ok(rows)
}

// The rows of all positions, as the device lists them.
fn listed<M: Medium>(alloc: Global, tables: &Tables<1>, medium: &mut M) -> Result<Vec<Row>, Fail> {
    let mut rows = Vec::new(alloc);
    let mut cursor = Cursor::At { bound: Bound::Min };
    for _ in 0..10000 {
        match next(medium, &cursor)? {
            Some(id) => {
                rows.push(row(tables, &id.family, id.snap))?;
                cursor = Cursor::After { id };
            }
            None => return Ok(rows),
        }
    }
    Ok(rows)
}

fn next<M: Medium>(medium: &mut M, cursor: &Cursor) -> Result<Option<ObjectId>, Fail> {
    let next = medium.next(cursor, &Bound::Max).ok().ok_or("listed")?;
    Ok(next)
}

#[test]
fn a_thousand_positions_are_listed_in_order(rt: HostRuntime) -> Result<(), Fail> {
    let alloc = rt.alloc();
    let tables = Tables::make(alloc)?;
    let mut medium = RamMedium::new(alloc, Items::new(alloc));
    let wanted = written(alloc, &tables, &mut medium, 1000)?;
    let found = listed(alloc, &tables, &mut medium)?;
    assert!(rt; wanted.len() > 500);
    assert!(rt; wanted.as_slice() == found.as_slice());
    Ok(())
}
