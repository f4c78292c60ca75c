//! What is found of one position.
ghost use Rattle.std.specs.Prelude.{◌≡◌, ◌<◌, ◌+◌, ◌&&◌, length, take, drop, IfOk, OnSome};
ghost use Rattle.std.specs.List.{list_all};
ghost use Rattle.std.specs.Option.{option_copied, option_flatten};
ghost use Rattle.pgs_find.specs.ObjectNames.{is_no_object};
ghost use Rattle.pgs_find.specs.ShardNames.{is_no_shard};
ghost use Rattle.pgs_select.specs.Choice.{chosen_place, entry_in};
ghost use Rattle.pgs_compare.specs.Finding as defined;
ghost use Rattle.pgs_compare.specs.Objects as objects;
ghost use Rattle.pgs_compare.specs.Parts as parts;

use crate::judging::info_at;
use crate::objects::object_errors;
use crate::shards::shard_findings;
use pgs_find::ObjectErrors;
use pgs_incons::{Chosen, Finding, ShardFinding};
use pgs_info::ObjectInfo;
use pgs_map::Entry;
use pgs_name::ObjectId;
use pgs_select::Judged;
use std::alloc::{AllocError, Global};

/// What is found of a position by the entries of its copies, what is known of each of them, and the place of the chosen one.
pub fn finding(
    alloc: Global,
    acting: &[u32],
    version: u64,
    id: &ObjectId,
    entries: &[Option<&Entry>],
    judged: &[Judged],
    place: Option<usize>,
) -> Result<Option<Finding>, AllocError>
    requires judged { judged.now ≡ parts.all_judged id.now (parts.entries_seen entries.now) }
    requires chosen { place ≡ chosen_place id.now (parts.entries_seen entries.now) }
    ensures { IfOk result (λ found. found ≡ defined.finding acting.now version id.now (parts.entries_seen entries.now)) }
{
    let info = info_at(judged, place);
    let errors = errors_among(alloc, id, entries, place)?;
    let shards = shard_findings(alloc, acting, entries, judged, info)?;
    if is_clean(errors, shards.as_slice()) {
        return Ok(None);
    }
    let chosen = chosen_copy(acting, entries, info, place)?;
    let id = id.clone()?;
    Ok(Some(Finding {
        id,
        version,
        errors,
        shards,
        chosen,
    }))
}

// The errors of the copies among each other.
fn errors_among(
    alloc: Global,
    id: &ObjectId,
    entries: &[Option<&Entry>],
    place: Option<usize>,
) -> Result<ObjectErrors, AllocError>
    ensures { IfOk result (λ errors. errors ≡ objects.errors_among id.now (parts.entries_seen entries.now) place (entry_in (parts.entries_seen entries.now) place)) }
{
    let Some(place) = place else {
        return Ok(ObjectErrors::none());
    };
    let Some(chosen) = entry_of(entries, place) else {
        return Ok(ObjectErrors::none());
    };
    errors_beside(alloc, id, chosen, entries, place)
}

// The errors of the chosen copy, which stands at a place, and the others.
fn errors_beside(
    alloc: Global,
    id: &ObjectId,
    chosen: &Entry,
    entries: &[Option<&Entry>],
    place: usize,
) -> Result<ObjectErrors, AllocError>
    requires { place < length entries.now }
    ensures { IfOk result (λ errors. errors ≡ objects.object_errors id.now chosen.now (objects.others place (parts.entries_seen entries.now))) }
{
    let front = before(entries, place);
    let back = behind(entries, place);
    object_errors(alloc, id, chosen, front, back)
}

fn before<'a>(entries: &'a [Option<&'a Entry>], place: usize) -> &'a [Option<&'a Entry>]
    requires { place < length entries.now }
    ensures { result.now ≡ take place entries.now }
{
    &entries[..place]
}

fn behind<'a>(entries: &'a [Option<&'a Entry>], place: usize) -> &'a [Option<&'a Entry>]
    requires { place < length entries.now }
    ensures { result.now ≡ drop (place + 1) entries.now }
{
    &entries[place + 1..]
}

// The entry at a place, if there is one.
fn entry_of<'a>(entries: &'a [Option<&'a Entry>], place: usize) -> Option<&'a Entry>
    ensures entry { option_copied result ≡ entry_in (parts.entries_seen entries.now) (Some place) }
    ensures within { OnSome result (place < length entries.now) }
{
    let entry = entries.get(place)?;
    *entry
}

// No name holds of a copy, or of the copies among each other.
fn is_clean(errors: ObjectErrors, shards: &[ShardFinding]) -> bool
    ensures { result ≡ (is_no_object errors && list_all (λ shard. is_no_shard shard.errors) shards.now) }
{
    errors.is_empty() && are_clean(shards)
}

fn are_clean(shards: &[ShardFinding]) -> bool
    ensures { result ≡ list_all (λ shard. is_no_shard shard.errors) shards.now }
{
    shards.iter().all(|shard| shard.errors.is_empty())
}

// The chosen copy, if there is one.
fn chosen_copy(
    acting: &[u32],
    entries: &[Option<&Entry>],
    info: Option<&ObjectInfo>,
    place: Option<usize>,
) -> Result<Option<Chosen>, AllocError>
    ensures { IfOk result (λ chosen. chosen ≡ defined.chosen_with (defined.osd_at acting.now place) (option_copied info.entry) (entry_in (parts.entries_seen entries.now) place)) }
{
    let Some(place) = place else {
        return Ok(None);
    };
    let Some(osd) = acting.get(place) else {
        return Ok(None);
    };
    let Some(info) = info else {
        return Ok(None);
    };
    let Some(entry) = entry_of(entries, place) else {
        return Ok(None);
    };
    let info = info.clone()?;
    let entry = entry.clone()?;
    Ok(Some(Chosen {
        osd: *osd,
        info,
        entry,
    }))
}
