ghost use Rattle.std.specs.Prelude.{◌≡◌};

use pgs_range::FamilyRange;
use std::alloc::AllocError;

/// A chunk of a scrub, as it was opened.
#[derive(Drop)]
pub struct Chunk {
    /// Its number, from 1 over all scrubs of the group.
    pub number: u64,
    /// The scrub that it is of.
    pub serial: u64,
    /// Its families.
    pub range: FamilyRange,
    /// The number of the log's last item that touches the range, or 0.
    pub version: u64,
    /// How many positions it was to have at most.
    pub limit: u32,
    /// Whether it gives way to no write.
    pub firm: bool,
}

impl Clone for Chunk {
    ghost is_clone = { λ a b. b ≡ a };

    fn clone(&self) -> Result<Chunk, AllocError> {
        let range = self.range.clone()?;
        Ok(Chunk {
            number: self.number,
            serial: self.serial,
            range,
            version: self.version,
            limit: self.limit,
            firm: self.firm,
        })
    }
}
