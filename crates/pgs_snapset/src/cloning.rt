//! The clone that a write makes.
ghost use Rattle.std.specs.Prelude.{◌≡◌, IfOk, nat_lt};
ghost use Rattle.std.specs.List.{filter, list_any};
ghost use Rattle.pgs_snapset.specs.Cloning.{clone_made};

use crate::clone_facts::CloneFacts;
use crate::snapset::SnapSet;
use pgs_request::Snaps;
use std::alloc::{AllocError, Global};

/// The clone that a write with a context of a seq and snaps makes of a head of a size.
pub fn clone_made(
    alloc: Global,
    set: &SnapSet,
    seq: u64,
    snaps: &[u64],
    size: u64,
) -> Result<Option<CloneFacts>, AllocError>
    ensures { IfOk result (λ made. made ≡ clone_made set.now seq snaps.now size) }
{
    if !is_any_newer(set.seq, snaps) {
        return Ok(None);
    }
    let snaps = newer(alloc, set.seq, snaps)?;
    Ok(Some(CloneFacts {
        snap: seq,
        size,
        snaps,
    }))
}

// Whether a snap is newer than a number.
fn is_any_newer(seq: u64, snaps: &[u64]) -> bool
    ensures { result ≡ list_any (λ s. nat_lt seq s) snaps.now }
{
    snaps.iter().any(|snap| seq < *snap)
}

// The snaps that are newer than a number, in their order.
fn newer(alloc: Global, seq: u64, snaps: &[u64]) -> Result<Snaps, AllocError>
    ensures { IfOk result (λ found. found ≡ filter (λ s. nat_lt seq s) snaps.now) }
{
    let mut found = Snaps::new(alloc);
    for snap in snaps {
        if seq < *snap {
            found.push(*snap)?;
        }
    }
    Ok(found)
}
