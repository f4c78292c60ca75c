//! The entries of a position, and what is known of each before a copy is chosen.
ghost use Rattle.std.specs.Prelude.{◌≡◌, ◌++◌, map, slice_get, IfOk};
ghost use Rattle.std.specs.Option.{option_copied};
ghost use Rattle.pgs_compare.specs.Parts as parts;
ghost use Rattle.pgs_compare.specs.Report as defined;

use pgs_facts::CopyFacts;
use pgs_info::ObjectInfo;
use pgs_map::{Entry, ScrubMap};
use pgs_name::ObjectId;
use pgs_select::Judged;
use std::alloc::{AllocError, Global};

/// The entries of a position, one for each map.
#[tactic(auto, using(crate::proofs::Turns::entry_next, crate::proofs::Turns::entry_end))]
pub fn entries_at<'a>(
    alloc: Global,
    maps: &'a [&'a ScrubMap],
    id: &ObjectId,
) -> Result<Vec<Option<&'a Entry>>, AllocError>
    requires { defined.AreOrdered (parts.maps_seen maps.now) }
    ensures { IfOk result (λ entries. parts.entries_seen entries.items ≡ defined.entries_at (parts.maps_seen maps.now) id.now) }
{
    let mut entries = Vec::new(alloc);
    for map in maps {
        entries.push(map.entry(id))?;
    }
    Ok(entries)
}

/// What is known of each copy of a position.
#[tactic(auto, using(crate::proofs::Turns::judged_next, crate::proofs::Turns::judged_end))]
pub fn judge(
    alloc: Global,
    id: &ObjectId,
    entries: &[Option<&Entry>],
) -> Result<Vec<Judged>, AllocError>
    ensures { IfOk result (λ judged. judged.items ≡ parts.all_judged id.now (parts.entries_seen entries.now)) }
{
    let mut judged = Vec::new(alloc);
    for entry in entries {
        let copy = Judged::of(alloc, id, *entry)?;
        judged.push(copy)?;
    }
    Ok(judged)
}

/// The info of the copy at a place.
pub fn info_at(judged: &[Judged], place: Option<usize>) -> Option<&ObjectInfo>
    ensures { option_copied result ≡ parts.info_at judged.now place }
{
    let place = place?;
    let copy = judged.get(place)?;
    copy.info()
}

/// The facts of the copy at a place, or else the first that were told.
pub fn facts_seen(judged: Vec<Judged>, place: Option<usize>) -> Option<CopyFacts>
    ensures { result ≡ parts.facts_seen judged.items place }
{
    match place {
        Some(place) => facts_at(judged, place),
        None => first_facts(judged),
    }
}

fn facts_at(judged: Vec<Judged>, place: usize) -> Option<CopyFacts>
    ensures { result ≡ parts.facts_of_judged (slice_get judged.items place) }
{
    if place >= judged.len() {
        return None;
    }
    let mut judged = judged;
    let copy = judged.remove(place);
    copy.facts
}

fn first_facts(judged: Vec<Judged>) -> Option<CopyFacts>
    ensures { result ≡ parts.first_facts judged.items }
{
    for copy in judged {
        if copy.facts.is_some() {
            return copy.facts;
        }
    }
    None
}
