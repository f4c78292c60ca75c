//! Clones that are well formed.
ghost use Rattle.std.specs.Prelude.{◌≡◌, nat_le};
ghost use Rattle.std.specs.List.{list_all};
ghost use Rattle.pgs_snapset.specs.WellFormed.{goes_down, are_snaps, are_clones};

use crate::clone_facts::CloneFacts;

/// Whether no clone is above a number.
pub fn are_upto(seq: u64, clones: &[CloneFacts]) -> bool
    ensures { result ≡ list_all (λ c. nat_le c.snap seq) clones.now }
{
    clones.iter().all(|clone| clone.snap <= seq)
}

/// Whether clones go up, and each has its snaps.
pub fn are_clones(clones: &[CloneFacts]) -> bool
    ensures { result ≡ are_clones 0 clones.now }
{
    let mut before = 0;
    for clone in clones {
        if clone.snap <= before {
            return false;
        }
        if !are_snaps(before, clone.snap, clone.snaps.as_slice()) {
            return false;
        }
        before = clone.snap;
    }
    true
}

// Whether a clone behind another has these snaps.
fn are_snaps(before: u64, snap: u64, snaps: &[u64]) -> bool
    ensures { result ≡ are_snaps before snap snaps.now }
{
    match snaps {
        [] => false,
        [first, rest @ ..] => {
            if snap < *first {
                return false;
            }
            goes_down(before, *first, rest)
        }
    }
}

// Whether snaps go down from one to another that is above a bound.
fn goes_down(bound: u64, first: u64, snaps: &[u64]) -> bool
    ensures { result ≡ goes_down bound first snaps.now }
{
    let mut before = first;
    for snap in snaps {
        if before <= *snap {
            return false;
        }
        before = *snap;
    }
    bound < before
}
