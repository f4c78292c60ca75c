ghost use Rattle.std.specs.Prelude.{◌≡◌, None};
ghost use Rattle.pgs_request.specs.Contexts.{bad_place, is_bad, bad_from};

use crate::snaps::Snaps;
use std::alloc::AllocError;

/// The snapshots that a client knows of when it writes.
#[derive(Drop)]
pub struct SnapContext {
    /// The newest snapshot of the pool.
    pub seq: u64,
    /// Those that the object's copies are kept for, the newest first.
    pub snaps: Snaps,
}

impl SnapContext {
    /// The place of the first snap that can't stand where it does: one that is 0, one above the seq, or one that isn't below
    /// the one before it.
    pub fn bad_place(&self) -> Option<u64>
        ensures { result ≡ bad_place self.now }
    {
        first_bad(self.seq, self.snaps.as_slice())
    }
}

fn first_bad(seq: u64, snaps: &[u64]) -> Option<u64>
    ensures { result ≡ bad_from 0 seq None snaps.now }
{
    let mut before = None;
    for (place, snap) in snaps.iter().enumerate() {
        if is_bad(seq, before, *snap) {
            return Some(place as u64);
        }
        before = Some(*snap);
    }
    None
}

fn is_bad(seq: u64, before: Option<u64>, snap: u64) -> bool
    ensures { result ≡ is_bad seq before snap }
{
    if snap == 0 {
        return true;
    }
    if seq < snap {
        return true;
    }
    match before {
        Some(before) => before <= snap,
        None => false,
    }
}

impl Clone for SnapContext {
    ghost is_clone = { λ a b. b ≡ a };

    fn clone(&self) -> Result<SnapContext, AllocError> {
        let snaps = self.snaps.clone()?;
        Ok(SnapContext {
            seq: self.seq,
            snaps,
        })
    }
}
