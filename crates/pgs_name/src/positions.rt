ghost use Rattle.std.specs.Prelude.{◌≡◌, IsTrue};
ghost use Rattle.std.specs.Cmp.{IsTotalOrder};
ghost use Rattle.std.specs.Ordering.{is_eq, is_le, nat_cmp};
ghost use Rattle.pgs_name.specs.Families.{same_family};
ghost use Rattle.pgs_name.specs.Order.{family_cmp};
ghost use Rattle.pgs_name.specs.Positions.{position_cmp, is_before, same_position, StandsTogether};

use crate::object_id::ObjectId;
use std::cmp::Ordering;

/// How two positions stand in the order of positions. It takes no memory.
#[tactic(auto, using(crate::proofs::Ordered::positions))]
pub fn compare(a: &ObjectId, b: &ObjectId) -> Ordering
    ensures order { result ≡ position_cmp a.now b.now }

    // The order, and what follows from it.
    ensures total { IsTotalOrder position_cmp }
    ensures same { is_eq result ≡ same_position a.now b.now }
    ensures by_snap { IsTrue (same_family a.now.family b.now.family) → result ≡ nat_cmp a.now.snap b.now.snap }
    ensures by_family { IsTrue (is_le result) → IsTrue (is_le (family_cmp a.now.family b.now.family)) }
    ensures together { StandsTogether a.now b.now }
{
    a.cmp(b)
}

/// Whether a position stands before another.
pub fn is_before(a: &ObjectId, b: &ObjectId) -> bool
    ensures { result ≡ is_before a.now b.now }
{
    a < b
}
