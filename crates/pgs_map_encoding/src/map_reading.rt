//! Reading a scrub map, part by part.
ghost use Rattle.pgs_codec.specs.Answers.{Reads};
ghost use Rattle.pgs_map_encoding.specs.Maps.{marks, whose, numbers, scrub_map};

use crate::bounds_reading::take_range;
use crate::entries_reading::take_entries;
use pgs_codec::{FieldError, Reader};
use pgs_map::ScrubMap;
use std::alloc::Global;

// Whose map it is.
#[derive(Clone, Copy, Drop)]
struct Whose {
    osd: u32,
    serial: u64,
    chunk: u64,
}

/// The map at the front of what is left.
pub fn take_map(alloc: Global, reader: &mut Reader) -> Result<ScrubMap, FieldError>
    ensures { Reads (λ x. x) reader.new result (scrub_map.read reader.old) }
{
    take_marks(reader)?;
    let (whose, needed, applied) = take_numbers(reader)?;
    let range = take_range(alloc, reader)?;
    let entries = take_entries(alloc, reader, &range)?;
    Ok(ScrubMap {
        osd: whose.osd,
        serial: whose.serial,
        chunk: whose.chunk,
        needed,
        applied,
        range,
        entries,
    })
}

fn take_marks(reader: &mut Reader) -> Result<(), FieldError>
    ensures { Reads (λ x. (tt, tt)) reader.new result (marks.read reader.old) }
{
    reader.take_fixed(0x4D)?;
    reader.take_fixed(1)
}

fn take_numbers(reader: &mut Reader) -> Result<(Whose, u64, u64), FieldError>
    ensures { Reads (λ x. ((x.0.osd, (x.0.serial, x.0.chunk)), (x.1, x.2))) reader.new result (numbers.read reader.old) }
{
    let whose = take_whose(reader)?;
    let needed = reader.take_u64()?;
    let applied = reader.take_u64()?;
    Ok((whose, needed, applied))
}

fn take_whose(reader: &mut Reader) -> Result<Whose, FieldError>
    ensures { Reads (λ x. (x.osd, (x.serial, x.chunk))) reader.new result (whose.read reader.old) }
{
    let osd = reader.take_u32()?;
    let serial = reader.take_u64()?;
    let chunk = reader.take_u64()?;
    Ok(Whose { osd, serial, chunk })
}
