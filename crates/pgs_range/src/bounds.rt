ghost use Rattle.std.specs.Prelude.{◌≡◌, IsTrue, IfOk};
ghost use Rattle.std.specs.Cmp.{IsTotalOrder};
ghost use Rattle.std.specs.Ordering.{is_eq};
ghost use Rattle.pgs_range.specs.declared.bound.Bound.{Bound};
ghost use Rattle.pgs_range.specs.declared.bound.Bound.TheVariants.{Min, Max};
ghost use Rattle.pgs_range.specs.Ends.{bound_cmp, same_bound, is_upto, is_within, AreTiles};

use crate::bound::Bound;
use crate::family_range::FamilyRange;
use std::alloc::AllocError;
use std::cmp::Ordering;

/// How two bounds stand in their order.
#[tactic(auto, using(crate::proofs::Ends::ends))]
pub fn compare_bounds(a: &Bound, b: &Bound) -> Ordering
    ensures order { result ≡ bound_cmp a.now b.now }

    // The order, and its ends.
    ensures total { IsTotalOrder bound_cmp }
    ensures same { is_eq result ≡ same_bound a.now b.now }
    ensures least { IsTrue (is_upto Min a.now) }
    ensures greatest { IsTrue (is_upto a.now Max) }
{
    by_kind(a, b)
}

fn by_kind(a: &Bound, b: &Bound) -> Ordering
    ensures { result ≡ bound_cmp a.now b.now }
{
    match a {
        Bound::Min => match b {
            Bound::Min => Ordering::Equal,
            Bound::At { family: _ } => Ordering::Less,
            Bound::Max => Ordering::Less,
        },
        Bound::At { family: first } => match b {
            Bound::Min => Ordering::Greater,
            Bound::At { family: second } => first.cmp(second),
            Bound::Max => Ordering::Less,
        },
        Bound::Max => match b {
            Bound::Min => Ordering::Greater,
            Bound::At { family: _ } => Ordering::Greater,
            Bound::Max => Ordering::Equal,
        },
    }
}

/// Whether a bound lies at the ends of a range or between them.
pub fn is_within(at: &Bound, range: &FamilyRange) -> bool
    ensures { result ≡ is_within at.now range.now }
{
    by_kind(&range.from, at).is_le() && by_kind(at, &range.to).is_le()
}

/// A range in two: the families below a bound, and those from it on.
#[tactic(auto, using(crate::proofs::Tiles::tiled))]
pub fn split(range: FamilyRange, at: Bound) -> Result<(FamilyRange, FamilyRange), AllocError>
    ensures first { IfOk result (λ parts. parts.0 ≡ record { from = range.from; to = at }) }
    ensures second { IfOk result (λ parts. parts.1 ≡ record { from = at; to = range.to }) }

    // Within the range, the two tile it.
    ensures tiles { IsTrue (is_within at range) → IfOk result (λ parts. AreTiles range parts.0 parts.1) }
{
    let from = at.clone()?;
    let FamilyRange { from: start, to } = range;
    Ok((
        FamilyRange {
            from: start,
            to: at,
        },
        FamilyRange { from, to },
    ))
}
