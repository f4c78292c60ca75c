ghost use Rattle.std.specs.Prelude.{◌≡◌, not, length};
ghost use Rattle.std.specs.List.{take_while};
ghost use Rattle.pgs_incons.specs.Found.{Ascends, finding_id, snap_id, is_below, is_behind};

use crate::finding::Finding;
use pgs_find::SnapFinding;
use pgs_name::Family;
use pgs_range::FamilyRange;

/// Where a list by position is cut at a range.
#[derive(Clone, Copy, Debug)]
pub struct Cut {
    /// How many are below the range.
    pub from: usize,
    /// How many aren't behind it.
    pub to: usize,
    /// How many there are.
    pub all: usize,
}

impl Cut {
    /// Where findings of copies are cut.
    pub fn of_findings(range: &FamilyRange, found: &[Finding]) -> Cut
        requires { Ascends finding_id found.now }
        ensures from { result.from ≡ length (take_while (λ x. is_below range.now (finding_id x).family) found.now) }
        ensures to { result.to ≡ length (take_while (λ x. not (is_behind range.now (finding_id x).family)) found.now) }
        ensures all { result.all ≡ length found.now }
    {
        Cut {
            from: findings_below(range, found),
            to: findings_ahead(range, found),
            all: found.len(),
        }
    }

    /// Where findings of snapshots are cut.
    pub fn of_snaps(range: &FamilyRange, snaps: &[SnapFinding]) -> Cut
        requires { Ascends snap_id snaps.now }
        ensures from { result.from ≡ length (take_while (λ x. is_below range.now (snap_id x).family) snaps.now) }
        ensures to { result.to ≡ length (take_while (λ x. not (is_behind range.now (snap_id x).family)) snaps.now) }
        ensures all { result.all ≡ length snaps.now }
    {
        Cut {
            from: snaps_below(range, snaps),
            to: snaps_ahead(range, snaps),
            all: snaps.len(),
        }
    }
}

// How many from the front on are below a range. The findings stand by position, so halving finds it.
fn findings_below(range: &FamilyRange, found: &[Finding]) -> usize
    requires { Ascends finding_id found.now }
    ensures { result ≡ length (take_while (λ x. is_below range.now (finding_id x).family) found.now) }
{
    found.partition_point(|finding| is_below(range, &finding.id.family))
}

fn snaps_below(range: &FamilyRange, snaps: &[SnapFinding]) -> usize
    requires { Ascends snap_id snaps.now }
    ensures { result ≡ length (take_while (λ x. is_below range.now (snap_id x).family) snaps.now) }
{
    snaps.partition_point(|finding| is_below(range, &finding.id.family))
}

// How many from the front on aren't behind a range.
fn findings_ahead(range: &FamilyRange, found: &[Finding]) -> usize
    requires { Ascends finding_id found.now }
    ensures { result ≡ length (take_while (λ x. not (is_behind range.now (finding_id x).family)) found.now) }
{
    found.partition_point(|finding| !is_behind(range, &finding.id.family))
}

fn snaps_ahead(range: &FamilyRange, snaps: &[SnapFinding]) -> usize
    requires { Ascends snap_id snaps.now }
    ensures { result ≡ length (take_while (λ x. not (is_behind range.now (snap_id x).family)) snaps.now) }
{
    snaps.partition_point(|finding| !is_behind(range, &finding.id.family))
}

fn is_below(range: &FamilyRange, family: &Family) -> bool
    ensures { result ≡ is_below range.now family.now }
{
    !range.from.is_at_most(family)
}

fn is_behind(range: &FamilyRange, family: &Family) -> bool
    ensures { result ≡ is_behind range.now family.now }
{
    range.from.is_at_most(family) && range.to.is_at_most(family)
}
