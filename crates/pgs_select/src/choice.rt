//! Which copy is chosen.
ghost use Rattle.std.specs.Prelude.{◌≡◌, ◌&&◌, ◌≤◌, MatchOption};
ghost use Rattle.std.specs.List.{list_any};
ghost use Rattle.std.specs.Option.{option_copied};
ghost use Rattle.pgs_select.specs.Best as best;
ghost use Rattle.pgs_select.specs.Choice as defined;

use crate::judged::Judged;
use pgs_info::ObjectInfo;
use std::cmp::Ordering;

/// The place of the copy that the others are held against: the first eligible one that no eligible one ranks above. It takes no memory.
pub fn choose(judged: &[Judged]) -> Option<usize>
    ensures place { result ≡ best.best_place judged.now }

    // In words: it is eligible, none ranks above it, and none before it ranks as it does. There is none exactly where none is eligible.
    ensures law { MatchOption result (best.IsNoneEligible judged.now) (best.IsBest judged.now) }
{
    first_best(judged)
}

fn first_best(judged: &[Judged]) -> Option<usize>
    ensures { result ≡ best.best_place judged.now }
{
    judged.iter().position(|copy| is_best(copy, judged))
}

fn is_best(copy: &Judged, all: &[Judged]) -> bool
    ensures { result ≡ best.is_best all.now copy.now }
{
    copy.eligible && !has_above(copy, all)
}

// Whether an eligible copy ranks above this one.
fn has_above(copy: &Judged, all: &[Judged]) -> bool
    ensures { result ≡ list_any (best.is_above copy.now) all.now }
{
    all.iter().any(|other| is_above(copy, other))
}

fn is_above(copy: &Judged, other: &Judged) -> bool
    ensures { result ≡ best.is_above copy.now other.now }
{
    other.eligible && is_below(copy.info(), other.info())
}

fn is_below(a: Option<&ObjectInfo>, b: Option<&ObjectInfo>) -> bool
    ensures { result ≡ defined.is_below (option_copied a.entry) (option_copied b.entry) }
{
    let Some(a) = a else {
        return false;
    };
    let Some(b) = b else {
        return false;
    };
    compare_ranks(a, b).is_lt()
}

// Infos by version, its epoch first, and then by how many digests they record.
fn compare_ranks(a: &ObjectInfo, b: &ObjectInfo) -> Ordering
    ensures { result ≡ defined.rank_cmp a.now b.now }
{
    let epochs = a.version.epoch.cmp(&b.version.epoch);
    let numbers = a.version.number.cmp(&b.version.number);
    let digests = recorded(a).cmp(&recorded(b));
    epochs.then(numbers).then(digests)
}

// How many digests an info records.
fn recorded(info: &ObjectInfo) -> u32
    ensures { result ≡ defined.recorded info.now }
{
    one_if(info.data_digest.is_some()) + one_if(info.omap_digest.is_some())
}

fn one_if(so: bool) -> u32
    ensures value { result ≡ defined.one_if so }
    ensures most { result ≤ 1 }
{
    if so { 1 } else { 0 }
}
