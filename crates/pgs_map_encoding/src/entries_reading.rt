//! Reading entries, which ascend in their range. Memory is taken for what was read alone, whatever a count says.
ghost use Rattle.std.specs.Prelude.{◌≡◌, []};
ghost use Rattle.std.specs.Option.{option_map};
ghost use Rattle.pgs_codec.specs.Fields.{u32, u64, such, followed, where_so};
ghost use Rattle.pgs_codec.specs.Ids.{id};
ghost use Rattle.pgs_codec.specs.Answers.{Reads};
ghost use Rattle.pgs_map_encoding.specs.Chains.{read_chain, last_of};
ghost use Rattle.pgs_map_encoding.specs.Entries.{may_be, may_follow, facts, entry};
ghost use Rattle.pgs_map_encoding.specs.Maps.{entries};

use crate::attrs_reading::take_attrs;
use crate::fits::may_follow;
use crate::outcome::Outcome;
use crate::outcomes::{has_digests, is_read_failure, is_stat_failure, may_be, take_outcome};
use pgs_codec::{FieldError, Reader};
use pgs_copy::Pairs;
use pgs_map::Entry;
use pgs_name::ObjectId;
use pgs_range::FamilyRange;
use sqlite_items::Items;
use std::alloc::Global;

/// The entries of a range at the front of what is left.
pub fn take_entries(
    alloc: Global,
    reader: &mut Reader,
    range: &FamilyRange,
) -> Result<Items<Entry>, FieldError>
    ensures { Reads (λ x. x) reader.new result ((entries range.now).read reader.old) }
{
    let count = reader.take_u32()?;
    take_all_entries(alloc, reader, range, count)
}

fn take_all_entries(
    alloc: Global,
    reader: &mut Reader,
    range: &FamilyRange,
    count: u32,
) -> Result<Items<Entry>, FieldError>
    ensures { Reads (λ x. x) reader.new result (read_chain (entry range.now) (last_of []) count reader.old) }
{
    let mut entries = Items::new(alloc);
    for _ in 0..count {
        let entry = take_entry(alloc, reader, range, &entries)?;
        entries.push(entry)?;
    }
    Ok(entries)
}

fn take_entry(
    alloc: Global,
    reader: &mut Reader,
    range: &FamilyRange,
    before: &Items<Entry>,
) -> Result<Entry, FieldError>
    ensures { Reads (λ x. x) reader.new result ((entry range.now (last_of before.now)).read reader.old) }
{
    let id = take_position(alloc, reader, range, before)?;
    let outcome = take_outcome(reader)?;
    let (size, attrs, digests) = take_facts(alloc, reader, outcome)?;
    Ok(Entry {
        id,
        stat_failed: is_stat_failure(outcome),
        read_failed: is_read_failure(outcome),
        size,
        attrs,
        data_digest: data_digest(digests),
        omap_digest: omap_digest(digests),
    })
}

// A position of the range behind those before it.
fn take_position(
    alloc: Global,
    reader: &mut Reader,
    range: &FamilyRange,
    before: &Items<Entry>,
) -> Result<ObjectId, FieldError>
    ensures { Reads (λ x. x) reader.new result ((such (may_follow range.now (last_of before.now)) id).read reader.old) }
{
    let at = reader.place();
    let id = reader.take_id(alloc)?;
    if may_follow(range, before.as_slice(), &id) {
        return Ok(id);
    }
    Err(FieldError::Bad { at })
}

fn take_facts(
    alloc: Global,
    reader: &mut Reader,
    outcome: Outcome,
) -> Result<(u64, Pairs, Option<(u32, u32)>), FieldError>
    ensures { Reads (λ x. (x.0, (x.1, x.2))) reader.new result ((facts outcome).read reader.old) }
{
    let size = take_size(reader, outcome)?;
    let attrs = take_attrs(alloc, reader, outcome)?;
    let digests = take_digests(reader, has_digests(outcome))?;
    Ok((size, attrs, digests))
}

fn take_size(reader: &mut Reader, outcome: Outcome) -> Result<u64, FieldError>
    ensures { Reads (λ x. x) reader.new result ((such (may_be outcome) u64).read reader.old) }
{
    let at = reader.place();
    let size = reader.take_u64()?;
    if may_be(outcome, size) {
        return Ok(size);
    }
    Err(FieldError::Bad { at })
}

// Both digests, where they follow.
fn take_digests(reader: &mut Reader, follow: bool) -> Result<Option<(u32, u32)>, FieldError>
    ensures { Reads (λ x. x) reader.new result ((where_so follow (followed u32 (λ first. u32))).read reader.old) }
{
    if follow {
        let data = reader.take_u32()?;
        let omap = reader.take_u32()?;
        return Ok(Some((data, omap)));
    }
    Ok(None)
}

fn data_digest(digests: Option<(u32, u32)>) -> Option<u32>
    ensures { result ≡ option_map (λ d. d.0) digests }
{
    match digests {
        Some((data, _)) => Some(data),
        None => None,
    }
}

fn omap_digest(digests: Option<(u32, u32)>) -> Option<u32>
    ensures { result ≡ option_map (λ d. d.1) digests }
{
    match digests {
        Some((_, omap)) => Some(omap),
        None => None,
    }
}
