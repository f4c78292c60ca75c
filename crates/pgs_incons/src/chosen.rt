use pgs_info::ObjectInfo;
use pgs_map::Entry;
use std::alloc::AllocError;

/// The copy that the others were held against.
#[derive(Drop)]
pub struct Chosen {
    /// Whose it is.
    pub osd: u32,
    /// What it records of the object.
    pub info: ObjectInfo,
    pub entry: Entry,
}

impl Clone for Chosen {
    ghost use Rattle.std.specs.Prelude.{◌≡◌};

    ghost is_clone = { λ a b. b ≡ a };

    fn clone(&self) -> Result<Chosen, AllocError> {
        let info = self.info.clone()?;
        let entry = self.entry.clone()?;
        Ok(Chosen {
            osd: self.osd,
            info,
            entry,
        })
    }
}
