ghost use Rattle.std.specs.Prelude.{◌≡◌};

use pgs_request::Snaps;
use std::alloc::AllocError;

/// What a snapset tells of a clone.
#[derive(Drop)]
pub struct CloneFacts {
    /// The newest snap that it holds the object for.
    pub snap: u64,
    /// Its size in bytes.
    pub size: u64,
    /// The snaps that it holds the object for, the newest first.
    pub snaps: Snaps,
}

impl Clone for CloneFacts {
    ghost is_clone = { λ a b. b ≡ a };

    fn clone(&self) -> Result<CloneFacts, AllocError> {
        let snaps = self.snaps.clone()?;
        Ok(CloneFacts {
            snap: self.snap,
            size: self.size,
            snaps,
        })
    }
}
