ghost use Rattle.std.specs.Prelude.{◌≡◌};

use pgs_copy::Pairs;
use pgs_name::ObjectId;
use std::alloc::AllocError;

/// What a member tells of one stored copy.
#[derive(Drop)]
pub struct Entry {
    pub id: ObjectId,
    /// The device failed at the copy's size and attributes: it has size 0, no attributes and no digests.
    pub stat_failed: bool,
    /// The device failed at the copy's data or omap: it has no digests.
    pub read_failed: bool,
    /// How many bytes its data has.
    pub size: u64,
    pub attrs: Pairs,
    /// The digest of its data, if that was read.
    pub data_digest: Option<u32>,
    /// The digest of its omap and the omap's header, if these were read.
    pub omap_digest: Option<u32>,
}

impl Clone for Entry {
    ghost is_clone = { λ a b. b ≡ a };

    fn clone(&self) -> Result<Entry, AllocError> {
        let id = self.id.clone()?;
        let attrs = self.attrs.clone()?;
        Ok(Entry {
            id,
            stat_failed: self.stat_failed,
            read_failed: self.read_failed,
            size: self.size,
            attrs,
            data_digest: self.data_digest,
            omap_digest: self.omap_digest,
        })
    }
}
