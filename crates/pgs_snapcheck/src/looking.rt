//! Looking at one position.
ghost use Rattle.std.specs.Prelude.{◌≡◌, ◌==◌, ◌&&◌, not};
ghost use Rattle.std.specs.List.{list_any};
ghost use Rattle.std.specs.Option.{option_copied};
ghost use Rattle.pgs_facts.specs.Facts as told;
ghost use Rattle.pgs_snapcheck.specs.Conditions as conditions;

use crate::view::View;
use pgs_facts::CopyFacts;
use pgs_name::{HEAD, ObjectId};
use pgs_snapset::{CloneFacts, SnapSet};

pub fn is_head(view: &View) -> bool
    ensures { result ≡ conditions.is_head view.now }
{
    view.id.snap == HEAD
}

/// The head of a family, if it is there.
pub fn head_of(family: &[View]) -> Option<&View>
    ensures { option_copied result ≡ conditions.head_of family.now }
{
    family.iter().find(|view| is_head(view))
}

/// The snapset that a position's copy holds, if it is there and reads.
pub fn snapset_in(view: &View) -> Option<&SnapSet>
    ensures { option_copied result ≡ conditions.snapset_in view.now.facts }
{
    match &view.facts {
        Some(facts) => facts.snapset.as_ref(),
        None => None,
    }
}

/// Whether a clone's family has no head.
pub fn is_headless(head: Option<&View>, view: &View) -> bool
    ensures { result ≡ conditions.is_headless (option_copied head.entry) view.now }
{
    !is_head(view) && head.is_none()
}

/// Whether a head has no snapset.
pub fn misses_snapset(view: &View) -> bool
    ensures { result ≡ conditions.lacks_snapset view.now }
{
    if !is_head(view) {
        return false;
    }
    match &view.facts {
        Some(facts) => !facts.has_snapset,
        None => false,
    }
}

/// Whether a head's snapset is there and doesn't read.
pub fn has_bad_snapset(view: &View) -> bool
    ensures { result ≡ conditions.holds_bad_snapset view.now }
{
    if !is_head(view) {
        return false;
    }
    match &view.facts {
        Some(facts) => facts.has_snapset && facts.snapset.is_none(),
        None => false,
    }
}

/// Whether a head's snapset reads and isn't well formed.
pub fn has_ill_formed(view: &View) -> bool
    ensures { result ≡ conditions.holds_ill_formed view.now }
{
    if !is_head(view) {
        return false;
    }
    match snapset_in(view) {
        Some(set) => !set.is_well_formed(),
        None => false,
    }
}

/// Whether a copy has no object info.
pub fn misses_info(view: &View) -> bool
    ensures { result ≡ conditions.has_facts told.misses_info view.now.facts }
{
    match &view.facts {
        Some(facts) => !facts.has_info,
        None => false,
    }
}

/// Whether a copy's object info is there, and isn't one of its position.
pub fn has_bad_info(view: &View) -> bool
    ensures { result ≡ conditions.has_facts (told.has_bad_info view.now.id) view.now.facts }
{
    match &view.facts {
        Some(facts) => facts.has_info && !is_info_of(&view.id, facts),
        None => false,
    }
}

// Whether a copy's object info is of this position.
fn is_info_of(id: &ObjectId, facts: &CopyFacts) -> bool
    ensures { result ≡ told.is_info_of id.now facts.now.info }
{
    match &facts.info {
        Some(info) => info.id == *id,
        None => false,
    }
}

/// Whether a head's size isn't that of its own info, or a clone's isn't that in the head's snapset.
pub fn has_other_size(head: Option<&View>, view: &View) -> bool
    ensures { result ≡ conditions.has_other_size (option_copied head.entry) view.now }
{
    let Some(facts) = &view.facts else {
        return false;
    };
    if is_head(view) {
        return has_wrong_size(facts);
    }
    match head {
        Some(head) => is_listed_otherwise(view.id.snap, facts.size, snapset_in(head)),
        None => false,
    }
}

// Whether a copy's own info records another size.
fn has_wrong_size(facts: &CopyFacts) -> bool
    ensures { result ≡ told.has_wrong_size facts.now }
{
    match &facts.info {
        Some(info) => info.size != facts.size,
        None => false,
    }
}

// Whether a snapset lists a clone with another size.
fn is_listed_otherwise(snap: u64, size: u64, set: Option<&SnapSet>) -> bool
    ensures { result ≡ conditions.lists_other_size snap size (option_copied set.entry) }
{
    match set {
        Some(set) => lists_otherwise(snap, size, set.clones.as_slice()),
        None => false,
    }
}

fn lists_otherwise(snap: u64, size: u64, clones: &[CloneFacts]) -> bool
    ensures { result ≡ list_any (λ c. (c.snap == snap) && not (c.size == size)) clones.now }
{
    clones
        .iter()
        .any(|clone| clone.snap == snap && clone.size != size)
}
