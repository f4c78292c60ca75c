//! Which maps have a spelling.
ghost use Rattle.std.specs.Prelude.{◌≡◌, ◌≤◌, ◌<◌, ◌^◌, ◌&&◌, [], length, take, is_some};
ghost use Rattle.std.specs.List.{list_all};
ghost use Rattle.pgs_codec.specs.Fields.{u32};
ghost use Rattle.pgs_codec.specs.Ids as ids;
ghost use Rattle.pgs_map_encoding.specs.Bounds as bounds;
ghost use Rattle.pgs_map_encoding.specs.Chains.{chain_fits, last_of};
ghost use Rattle.pgs_map_encoding.specs.Entries as defined;
ghost use Rattle.pgs_map_encoding.specs.Maps.{entries};

use crate::bounds_reading::{is_below, is_name, is_word};
use crate::outcome::Outcome;
use crate::outcomes::{may_be, outcome_of};
use pgs_bytes::Bytes;
use pgs_copy::Pairs;
use pgs_map::{Entry, ScrubMap};
use pgs_name::{Family, HEAD, ObjectId, is_before};
use pgs_range::{Bound, FamilyRange};
use sqlite_items::Items;

fn both(first: bool, second: bool) -> bool
    ensures { result ≡ (first && second) }
{
    first && second
}

/// Whether a map has a spelling: its numbers have one always.
pub fn has_spelling(map: &ScrubMap) -> bool
    ensures { result ≡ (bounds.range.fits map.now.range && (entries map.now.range).fits map.now.entries) }
{
    both(
        range_fits(&map.range),
        entries_fit(&map.range, &map.entries),
    )
}

// ---- ranges

#[tactic(auto, using(crate::proofs::Spelled::range_is))]
fn range_fits(range: &FamilyRange) -> bool
    ensures { result ≡ bounds.range.fits range.now }
{
    let second = both(bound_fits(&range.to), is_below(&range.from, &range.to));
    both(bound_fits(&range.from), second)
}

#[tactic(auto, using(crate::proofs::Spelled::family_at))]
fn bound_fits(bound: &Bound) -> bool
    ensures { result ≡ bounds.bound.fits bound.now }
{
    match bound {
        Bound::Min => true,
        Bound::At { family } => family_fits(family),
        Bound::Max => true,
    }
}

#[tactic(auto, using(crate::proofs::Spelled::family_is))]
fn family_fits(family: &Family) -> bool
    ensures { result ≡ bounds.family.fits family.now }
{
    both(name_fits(family), !family.key().is_empty())
}

#[tactic(auto, using(crate::proofs::Spelled::parts_are))]
fn name_fits(family: &Family) -> bool
    ensures { result ≡ bounds.family_parts.fits (bounds.parts_of_family family.now) }
{
    let words = both(is_word(64, family.space()), is_word(255, family.kept_key()));
    both(words, is_name_beside(family.kept_key(), family.name()))
}

fn is_name_beside(key: &[u8], name: &[u8]) -> bool
    ensures { result ≡ (bounds.is_name_beside key.now name.now) }
{
    both(is_name(name), key != name)
}

#[tactic(auto, using(crate::proofs::Spelled::id_is))]
fn id_fits(id: &ObjectId) -> bool
    ensures { result ≡ ids.id.fits id.now }
{
    both(family_fits(&id.family), both(1 <= id.snap, id.snap <= HEAD))
}

// ---- entries

fn entries_fit(range: &FamilyRange, all: &Items<Entry>) -> bool
    ensures { result ≡ (entries range.now).fits all.now }
{
    both(
        all.len() <= u32::MAX as usize,
        follow(range, all.as_slice()),
    )
}

// Whether each entry may stand where it does.
fn follow(range: &FamilyRange, entries: &[Entry]) -> bool
    ensures { result ≡ chain_fits (defined.entry range.now) (last_of []) entries.now }
{
    for at in 0..entries.len() {
        if !entry_fits(range, before(entries, at), &entries[at]) {
            return false;
        }
    }
    true
}

// The entries in front of a place.
fn before(entries: &[Entry], at: usize) -> &[Entry]
    requires { at ≤ length entries.now }
    ensures { result.now ≡ take at entries.now }
{
    &entries[..at]
}

#[tactic(auto, using(crate::proofs::Spelled::entry_is))]
fn entry_fits(range: &FamilyRange, before: &[Entry], entry: &Entry) -> bool
    ensures { result ≡ (defined.entry range.now (last_of before.now)).fits entry.now }
{
    let position = both(id_fits(&entry.id), may_follow(range, before, &entry.id));
    both(position, both(facts_fit(entry), is_told(entry)))
}

/// Whether a position may stand behind entries: it is of a family of the range, and stands behind that of the last entry.
pub fn may_follow(range: &FamilyRange, before: &[Entry], id: &ObjectId) -> bool
    ensures { result ≡ defined.may_follow range.now (last_of before.now) id.now }
{
    match before.last() {
        Some(last) => range.in_range(&id.family) && is_before(&last.id, id),
        None => range.in_range(&id.family),
    }
}

// Whether an entry tells of one outcome.
fn is_told(entry: &Entry) -> bool
    ensures told { result ≡ defined.is_told entry.now }
    ensures first { defined.IsWord entry.now.data_digest }
    ensures omap { defined.IsWord entry.now.omap_digest }
{
    let first = is_there(entry.data_digest);
    let omap = is_there(entry.omap_digest);
    tells_one(entry.stat_failed, entry.read_failed, first, omap)
}

fn is_there(digest: Option<u32>) -> bool
    ensures told { result ≡ is_some digest }
    ensures word { defined.IsWord digest }
{
    digest.is_some()
}

fn tells_one(stat_failed: bool, read_failed: bool, first: bool, omap: bool) -> bool
    ensures { result ≡ defined.tells_one stat_failed read_failed first omap }
{
    if stat_failed {
        return !read_failed && !first && !omap;
    }
    if read_failed {
        return !first && !omap;
    }
    if first {
        return omap;
    }
    !omap
}

// Whether size and attributes may be what they are.
fn facts_fit(entry: &Entry) -> bool
    ensures told { result ≡ (defined.may_be (defined.outcome_of entry.now) entry.now.size && (defined.attrs (defined.outcome_of entry.now)).fits entry.now.attrs) }
    ensures size { entry.now.size < 2 ^ 64 }
{
    let outcome = outcome_of(entry);
    both(
        may_be(outcome, entry.size),
        attrs_fit(outcome, &entry.attrs),
    )
}

#[tactic(auto, using(crate::proofs::Spelled::attrs_are))]
fn attrs_fit(outcome: Outcome, pairs: &Pairs) -> bool
    ensures { result ≡ (defined.attrs outcome).fits pairs.now }
{
    let count = pairs.as_map().len();
    let counted = both(count <= u32::MAX as usize, may_be(outcome, count as u64));
    both(counted, are_short(pairs))
}

// Whether four bytes tell the length of each name and value.
fn are_short(pairs: &Pairs) -> bool
    ensures { result ≡ list_all defined.is_short pairs.now }
{
    for (name, value) in pairs.as_map() {
        if !is_short(name, value) {
            return false;
        }
    }
    true
}

fn is_short(name: &Bytes, value: &Bytes) -> bool
    ensures { result ≡ defined.is_short (name.now, value.now) }
{
    both(
        name.len() <= u32::MAX as usize,
        value.len() <= u32::MAX as usize,
    )
}
