//! The first copy behind a cursor, found in the order of the maps.
ghost use Rattle.std.specs.Prelude.{◌≡◌};
ghost use Rattle.std.specs.Option.{option_map};
ghost use Rattle.std.specs.Range.Bound.{bound_map};
ghost use Rattle.std.specs.Map.Iter.{deref_pair};
ghost use Rattle.std.specs.BTreeMap.{IsOrdered};
ghost use Rattle.std.specs.BTreeMap.Range.{is_from_start};
ghost use Rattle.pgs_name.specs.Order.{family_cmp};
ghost use Rattle.pgs_name.specs.Positions.{is_before};
ghost use Rattle.pgs_range.specs.Listed.{is_behind};
ghost use Rattle.pgs_store.specs.Firsts.{IsFirst, IsNextSnap, first_filled, at_snap};
ghost use Rattle.pgs_store.specs.Kept.{copies_in};
ghost use Rattle.pgs_store.specs.Stores.{is_stored};

use pgs_copy::ObjCopy;
use pgs_name::Family;
use pgs_range::{Bound, Cursor};
use std::collections::BTreeMap;
use std::ops::Bound as End;

type Copies = BTreeMap<u64, ObjCopy>;

/// The family and the snap of the least copy behind a cursor.
pub fn behind<'a>(
    families: &'a BTreeMap<Family, Copies>,
    cursor: &'a Cursor,
) -> Option<(&'a Family, u64)>
    ensures { IsFirst (is_stored (copies_in families.now)) (is_behind cursor.now) (option_map (λ p. at_snap p.0.now p.1) result) }
{
    match cursor {
        Cursor::At { bound: Bound::Min } => first_from(families, End::Unbounded),
        Cursor::At {
            bound: Bound::At { family },
        } => first_from(families, End::Included(family)),
        Cursor::At { bound: Bound::Max } => None,
        Cursor::After { id } => after(families, &id.family, id.snap),
    }
}

// The least copy behind a position: of its own family, or else of those above.
#[tactic(auto, using(crate::proofs::Nexts::in_family, crate::proofs::Nexts::above_family))]
fn after<'a>(
    families: &'a BTreeMap<Family, Copies>,
    family: &'a Family,
    snap: u64,
) -> Option<(&'a Family, u64)>
    ensures { IsFirst (is_stored (copies_in families.now)) (is_before (at_snap family.now snap)) (option_map (λ p. at_snap p.0.now p.1) result) }
{
    match next_snap(families, family, snap) {
        Some(next) => Some((family, next)),
        None => first_from(families, End::Excluded(family)),
    }
}

// The next snap of a family.
fn next_snap(families: &BTreeMap<Family, Copies>, family: &Family, snap: u64) -> Option<u64>
    ensures { IsNextSnap (copies_in families.now family.now) snap result }
{
    let copies = families.get(family)?;
    let (next, _) = copies.range((End::Excluded(snap), End::Unbounded)).next()?;
    Some(*next)
}

// The least copy of the families from a start on.
#[tactic(auto, using(crate::proofs::Filled::no_first, crate::proofs::Filled::one_first, crate::proofs::Filled::finds_passing))]
fn first_from<'a>(
    families: &'a BTreeMap<Family, Copies>,
    start: End<&'a Family>,
) -> Option<(&'a Family, u64)>
    ensures { IsFirst (is_stored (copies_in families.now)) (λ id. is_from_start family_cmp (bound_map (λ x. x.now) start.entry) id.family) (option_map (λ p. at_snap p.0.now p.1) result) }
{
    let Some((family, copies)) = filled(families, start) else {
        return None;
    };
    let Some((snap, _)) = copies.first_key_value() else {
        return None;
    };
    Some((family, *snap))
}

// The first of the families from a start on that has a copy.
fn filled<'a>(
    families: &'a BTreeMap<Family, Copies>,
    start: End<&'a Family>,
) -> Option<(&'a Family, &'a Copies)>
    ensures first { option_map deref_pair result ≡ first_filled families.now (bound_map (λ x. x.now) start.entry) }
    ensures ordered { IsOrdered family_cmp families.now }
{
    families
        .range((start, End::Unbounded))
        .find(|(_, copies)| copies.len() > 0)
}
