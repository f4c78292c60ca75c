ghost use Rattle.std.specs.Prelude.{◌≡◌, IfOk};
ghost use Rattle.pgs_compare.specs.Parts.{attr_names};

use pgs_bytes::Bytes;
use std::alloc::{AllocError, Global};

// The names of the attributes that aren't a user's.
#[derive(Drop)]
pub struct AttrNames {
    pub info: Bytes,
    pub snapset: Bytes,
}

impl AttrNames {
    pub fn new(alloc: Global) -> Result<AttrNames, AllocError>
        ensures { IfOk result (λ names. names ≡ attr_names) }
    {
        let info = Bytes::from_slice(alloc, b"_")?;
        let snapset = Bytes::from_slice(alloc, b"snapset")?;
        Ok(AttrNames { info, snapset })
    }
}
