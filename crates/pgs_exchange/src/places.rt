//! Where a map isn't what was asked for.
ghost use Rattle.std.specs.Prelude.{◌≡◌, ◌≤◌, IsTrue, true, length};
ghost use Rattle.pgs_map_encoding.specs.Bounds as bounds;
ghost use Rattle.pgs_map_encoding.specs.Maps.{map_fits};
ghost use Rattle.pgs_range.specs.Ends.{same_bound};
ghost use Rattle.pgs_exchange.specs.Checked as checked;

use pgs_chunk::Ask;
use pgs_map::ScrubMap;
use pgs_name::Family;
use pgs_range::{Bound, compare_bounds};

fn is_same(a: &Bound, b: &Bound) -> bool
    ensures { result ≡ same_bound a.now b.now }
{
    compare_bounds(a, b).is_eq()
}

// How many bytes spell a family: its parts, each behind its length in four bytes.
#[tactic(auto, using(crate::proofs::Lengths::places))]
fn family_length(family: &Family) -> usize
    requires { bounds.family.fits family.now ≡ true }
    ensures exact { result ≡ length (bounds.family.spell family.now) }
    ensures few { result ≤ 586 }
{
    12 + family.space().len() + family.kept_key().len() + family.name().len()
}

// How many bytes spell a bound: a byte for its kind, and then its family.
#[tactic(auto, using(crate::proofs::Lengths::family_fits))]
fn bound_length(bound: &Bound) -> usize
    requires { bounds.bound.fits bound.now ≡ true }
    ensures exact { result ≡ length (bounds.bound.spell bound.now) }
    ensures few { result ≤ 587 }
{
    match bound {
        Bound::Min => 1,
        Bound::At { family } => 1 + family_length(family),
        Bound::Max => 1,
    }
}

/// The place of the first of a map's chunk, its first bound and its second bound that isn't what was asked for.
#[tactic(auto, using(crate::proofs::Lengths::from_fits))]
pub fn other_at(ask: &Ask, map: &ScrubMap) -> Option<usize>
    requires { IsTrue (map_fits map.now) }
    ensures { result ≡ checked.other_at ask.now map.now }
{
    if map.chunk != ask.chunk {
        return Some(14);
    }
    if !is_same(&map.range.from, &ask.range.from) {
        return Some(38);
    }
    if !is_same(&map.range.to, &ask.range.to) {
        return Some(38 + bound_length(&map.range.from));
    }
    None
}
