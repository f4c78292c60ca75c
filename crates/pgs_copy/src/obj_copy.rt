ghost use Rattle.std.specs.Prelude.{◌≡◌};

use crate::pairs::Pairs;
use pgs_bytes::Bytes;
use std::alloc::{AllocError, Global};

/// What a member stores of the head or of a clone.
#[derive(Drop)]
pub struct ObjCopy {
    /// The data.
    pub bytes: Bytes,
    pub attrs: Pairs,
    pub omap: Pairs,
    /// The header of the omap.
    pub header: Bytes,
}

impl ObjCopy {
    ghost use Rattle.pgs_copy.specs.Copies.{copy_bytes, empty_copy};
    ghost use Rattle.pgs_copy.specs.Sizes.{fitting};

    /// A copy with nothing in it. It takes no memory.
    pub fn new(alloc: Global) -> ObjCopy
        ensures { result ≡ empty_copy }
    {
        ObjCopy {
            bytes: Bytes::new(alloc),
            attrs: Pairs::new(alloc),
            omap: Pairs::new(alloc),
            header: Bytes::new(alloc),
        }
    }

    /// The bytes of all its parts, names and keys counted too, or nothing where they are more than a `u64` holds.
    pub fn size(&self) -> Option<u64>
        ensures { result ≡ fitting (copy_bytes self.now) }
    {
        let attrs = self.attrs.size()?;
        let omap = self.omap.size()?;
        let bytes = self.bytes.len() as u64;
        let header = self.header.len() as u64;
        attrs
            .checked_add(omap)?
            .checked_add(bytes)?
            .checked_add(header)
    }
}

impl Clone for ObjCopy {
    ghost is_clone = { λ a b. b ≡ a };

    fn clone(&self) -> Result<ObjCopy, AllocError> {
        let bytes = self.bytes.clone()?;
        let attrs = self.attrs.clone()?;
        let omap = self.omap.clone()?;
        let header = self.header.clone()?;
        Ok(ObjCopy {
            bytes,
            attrs,
            omap,
            header,
        })
    }
}
