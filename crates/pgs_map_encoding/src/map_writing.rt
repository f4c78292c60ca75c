//! Spelling a scrub map, part by part. Nothing is said of the vector where memory runs out.
ghost use Rattle.std.specs.Prelude.{◌≡◌, ◌++◌, true, OnOk};
ghost use Rattle.pgs_map_encoding.specs.Maps.{marks, whose, numbers, entries, parts_of, map_spelling};

use crate::bounds_writing::put_range;
use crate::entries_writing::{put_all_entries, put_count};
use pgs_codec::{put_u8, put_u32, put_u64};
use pgs_map::ScrubMap;
use std::alloc::AllocError;

/// Appends the spelling of a map.
pub fn put_map(into: &mut Vec<u8>, map: &ScrubMap) -> Result<(), AllocError>
    ensures spelled { OnOk result (into.new.items ≡ into.old.items ++ map_spelling map.now) }
    ensures numbered { OnOk result (numbers.fits (parts_of map.now).1.0 ≡ true) }
{
    put_marks(into)?;
    put_numbers(into, map)?;
    put_range(into, &map.range)?;
    put_entries(into, map)
}

#[tactic(auto, using(crate::proofs::Joined::two))]
fn put_marks(into: &mut Vec<u8>) -> Result<(), AllocError>
    ensures { OnOk result (into.new.items ≡ into.old.items ++ marks.spell (tt, tt)) }
{
    put_u8(into, 0x4D)?;
    put_u8(into, 1)
}

#[tactic(auto, using(crate::proofs::Joined::three))]
fn put_numbers(into: &mut Vec<u8>, map: &ScrubMap) -> Result<(), AllocError>
    ensures spelled { OnOk result (into.new.items ≡ into.old.items ++ numbers.spell (parts_of map.now).1.0) }
    ensures fits { OnOk result (numbers.fits (parts_of map.now).1.0 ≡ true) }
{
    put_whose(into, map)?;
    put_u64(into, map.needed)?;
    put_u64(into, map.applied)
}

#[tactic(auto, using(crate::proofs::Joined::three))]
fn put_whose(into: &mut Vec<u8>, map: &ScrubMap) -> Result<(), AllocError>
    ensures spelled { OnOk result (into.new.items ≡ into.old.items ++ whose.spell (parts_of map.now).1.0.0) }
    ensures fits { OnOk result (whose.fits (parts_of map.now).1.0.0 ≡ true) }
{
    put_u32(into, map.osd)?;
    put_u64(into, map.serial)?;
    put_u64(into, map.chunk)
}

#[tactic(auto, using(crate::proofs::Joined::two))]
fn put_entries(into: &mut Vec<u8>, map: &ScrubMap) -> Result<(), AllocError>
    ensures { OnOk result (into.new.items ≡ into.old.items ++ (entries map.now.range).spell map.now.entries) }
{
    put_count(into, map.entries.len())?;
    put_all_entries(into, map.entries.as_slice())
}
