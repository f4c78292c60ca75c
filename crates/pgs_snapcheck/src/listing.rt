//! The clones that are there, and those that a snapset lists.
ghost use Rattle.std.specs.Prelude.{◌≡◌, ◌==◌, not, map, IfOk};
ghost use Rattle.std.specs.List.{filter, list_any};
ghost use Rattle.pgs_snapcheck.specs.Conditions as conditions;

use crate::looking::{is_head, snapset_in};
use crate::view::View;
use pgs_snapset::{CloneFacts, SnapSet};
use sqlite_items::Items;
use std::alloc::{AllocError, Global};
use std::collections::BTreeSet;

/// The snaps of the clones that are there.
pub fn clones_there(alloc: Global, family: &[View]) -> Result<Items<u64>, AllocError>
    ensures { IfOk result (λ snaps. snaps ≡ conditions.clones_there family.now) }
{
    let mut snaps = Items::new(alloc);
    for view in family {
        if is_clone(view) {
            snaps.push(view.id.snap)?;
        }
    }
    Ok(snaps)
}

fn is_clone(view: &View) -> bool
    ensures { result ≡ not (conditions.is_head view.now) }
{
    !is_head(view)
}

/// The clones that a head lists and that aren't there.
pub fn missing_from(alloc: Global, there: &[u64], view: &View) -> Result<Items<u64>, AllocError>
    ensures { IfOk result (λ snaps. snaps ≡ conditions.missing_from there.now view.now) }
{
    if !is_head(view) {
        return Ok(Items::new(alloc));
    }
    match snapset_in(view) {
        Some(set) => missing_of(alloc, there, set),
        None => Ok(Items::new(alloc)),
    }
}

/// The clones that are there and that a head doesn't list.
pub fn extra_beside(alloc: Global, there: &[u64], view: &View) -> Result<Items<u64>, AllocError>
    ensures { IfOk result (λ snaps. snaps ≡ conditions.extra_beside there.now view.now) }
{
    if !is_head(view) {
        return Ok(Items::new(alloc));
    }
    match snapset_in(view) {
        Some(set) => extra_of(alloc, there, set),
        None => Ok(Items::new(alloc)),
    }
}

fn missing_of(alloc: Global, there: &[u64], set: &SnapSet) -> Result<Items<u64>, AllocError>
    ensures { IfOk result (λ snaps. snaps ≡ conditions.missing_of there.now set.now) }
{
    let snaps = gather_missing(alloc, there, set.clones.as_slice())?;
    in_order(alloc, snaps)
}

// The clones of a list that aren't there.
fn gather_missing(
    alloc: Global,
    there: &[u64],
    clones: &[CloneFacts],
) -> Result<BTreeSet<u64>, AllocError>
    ensures { IfOk result (λ snaps. snaps.keys ≡ conditions.ascending (map (λ c. c.snap) (filter (λ c. not (conditions.is_in c.snap there.now)) clones.now))) }
{
    let mut snaps = BTreeSet::new(alloc);
    for clone in clones {
        if !is_in(clone.snap, there) {
            snaps.insert(clone.snap)?;
        }
    }
    Ok(snaps)
}

// The numbers of a set in their order.
fn in_order(alloc: Global, set: BTreeSet<u64>) -> Result<Items<u64>, AllocError>
    ensures { IfOk result (λ list. list ≡ set.keys) }
{
    let mut set = set;
    let mut list = Items::new(alloc);
    while let Some(number) = set.pop_first() {
        list.push(number)?;
    }
    Ok(list)
}

fn extra_of(alloc: Global, there: &[u64], set: &SnapSet) -> Result<Items<u64>, AllocError>
    ensures { IfOk result (λ snaps. snaps ≡ conditions.extra_of there.now set.now) }
{
    let mut snaps = Items::new(alloc);
    for snap in there {
        if !is_listed(set, *snap) {
            snaps.push(*snap)?;
        }
    }
    Ok(snaps)
}

fn is_in(snap: u64, snaps: &[u64]) -> bool
    ensures { result ≡ conditions.is_in snap snaps.now }
{
    snaps.contains(&snap)
}

fn is_listed(set: &SnapSet, snap: u64) -> bool
    ensures { result ≡ conditions.is_listed set.now snap }
{
    is_among(set.clones.as_slice(), snap)
}

// Whether a snap is that of one of these clones.
fn is_among(clones: &[CloneFacts], snap: u64) -> bool
    ensures { result ≡ list_any (λ c. c.snap == snap) clones.now }
{
    clones.iter().any(|clone| clone.snap == snap)
}
