use pgs_range::FamilyRange;
use std::alloc::AllocError;

/// What a member is asked for where a chunk is open.
#[derive(Drop)]
pub struct Ask {
    /// The number of the scrub.
    pub serial: u64,
    /// The number of the chunk.
    pub chunk: u64,
    /// The families of the chunk.
    pub range: FamilyRange,
    /// The number of the log's last item that touches the range, or 0.
    pub needed: u64,
    /// Whether data is read.
    pub deep: bool,
}

impl Clone for Ask {
    ghost use Rattle.std.specs.Prelude.{◌≡◌};

    ghost is_clone = { λ a b. b ≡ a };

    fn clone(&self) -> Result<Ask, AllocError> {
        let range = self.range.clone()?;
        Ok(Ask {
            serial: self.serial,
            chunk: self.chunk,
            range,
            needed: self.needed,
            deep: self.deep,
        })
    }
}
