//! Spelling entries. Nothing is said of the vector where memory runs out.
ghost use Rattle.std.specs.Prelude.{◌≡◌, ◌++◌, length, OnOk};
ghost use Rattle.std.specs.List.{flat_map};
ghost use Rattle.pgs_codec.specs.Fields.{u32, followed, spelled_where};
ghost use Rattle.pgs_map_encoding.specs.Entries.{attr_spelling, attrs, both_digests, outcome, outcome_of, facts, entry_spelling, parts_of};

use crate::outcomes::{byte_of, outcome_of};
use pgs_bytes::Bytes;
use pgs_codec::{put_bytes, put_id, put_u8, put_u32, put_u64};
use pgs_copy::Pairs;
use pgs_map::Entry;
use std::alloc::AllocError;

/// Appends how many fields follow. A count that four bytes can't tell is refused.
pub fn put_count(into: &mut Vec<u8>, count: usize) -> Result<(), AllocError>
    ensures { OnOk result (into.new.items ≡ into.old.items ++ u32.spell count) }
{
    if count > u32::MAX as usize {
        return Err(AllocError);
    }
    put_u32(into, count as u32)
}

/// Appends the spellings of entries.
#[tactic(auto, using(crate::proofs::Joined::one_more))]
pub fn put_all_entries(into: &mut Vec<u8>, entries: &[Entry]) -> Result<(), AllocError>
    ensures { OnOk result (into.new.items ≡ into.old.items ++ flat_map entry_spelling entries.now) }
{
    for entry in entries {
        put_entry(into, entry)?;
    }
    Ok(())
}

fn put_entry(into: &mut Vec<u8>, entry: &Entry) -> Result<(), AllocError>
    ensures { OnOk result (into.new.items ≡ into.old.items ++ entry_spelling entry.now) }
{
    put_id(into, &entry.id)?;
    put_outcome(into, entry)?;
    put_facts(into, entry)
}

fn put_outcome(into: &mut Vec<u8>, entry: &Entry) -> Result<(), AllocError>
    ensures { OnOk result (into.new.items ≡ into.old.items ++ outcome.spell (outcome_of entry.now)) }
{
    put_u8(into, byte_of(outcome_of(entry)))
}

fn put_facts(into: &mut Vec<u8>, entry: &Entry) -> Result<(), AllocError>
    ensures { OnOk result (into.new.items ≡ into.old.items ++ (facts (outcome_of entry.now)).spell (parts_of entry.now).1.1) }
{
    put_u64(into, entry.size)?;
    put_attrs(into, &entry.attrs)?;
    put_digests(into, entry.data_digest, entry.omap_digest)
}

#[tactic(auto, using(crate::proofs::Joined::two))]
fn put_attrs(into: &mut Vec<u8>, pairs: &Pairs) -> Result<(), AllocError>
    ensures { OnOk result (into.new.items ≡ into.old.items ++ (u32.spell (length pairs.now) ++ flat_map attr_spelling pairs.now)) }
{
    put_count(into, pairs.as_map().len())?;
    put_all_attrs(into, pairs)
}

fn put_all_attrs(into: &mut Vec<u8>, pairs: &Pairs) -> Result<(), AllocError>
    ensures { OnOk result (into.new.items ≡ into.old.items ++ flat_map attr_spelling pairs.now) }
{
    for (name, value) in pairs.as_map() {
        put_attr(into, name, value)?;
    }
    Ok(())
}

#[tactic(auto, using(crate::proofs::Joined::two))]
fn put_attr(into: &mut Vec<u8>, name: &Bytes, value: &Bytes) -> Result<(), AllocError>
    ensures { OnOk result (into.new.items ≡ into.old.items ++ attr_spelling (name.now, value.now)) }
{
    put_bytes(into, name.as_slice())?;
    put_bytes(into, value.as_slice())
}

// Both digests, or nothing where one of them isn't there.
#[tactic(auto, using(crate::proofs::Joined::two, crate::proofs::Joined::none))]
fn put_digests(
    into: &mut Vec<u8>,
    data_digest: Option<u32>,
    omap_digest: Option<u32>,
) -> Result<(), AllocError>
    ensures { OnOk result (into.new.items ≡ into.old.items ++ spelled_where (followed u32 (λ first. u32)) (both_digests data_digest omap_digest)) }
{
    let Some(data) = data_digest else {
        return Ok(());
    };
    let Some(omap) = omap_digest else {
        return Ok(());
    };
    put_u32(into, data)?;
    put_u32(into, omap)
}
