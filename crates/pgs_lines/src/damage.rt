ghost use Rattle.std.specs.Prelude.{◌≡◌};

use pgs_bytes::Bytes;
use pgs_request::Payload;
use std::alloc::AllocError;

/// What a line does to one stored copy, behind the back of the group.
#[derive(Drop)]
pub enum Damage {
    /// The copy is taken away.
    Lose,
    /// Some bits of one byte of the data are turned over.
    Flip {
        /// The place of the byte, from 0.
        at: u32,
        /// The bits, from 1 to 255.
        xor: u8,
    },
    /// The data is cut to a size. Data that is no longer stays as it is.
    Cut {
        /// The size in bytes.
        size: u32,
    },
    /// The data becomes the payload.
    SetData {
        /// The new data.
        payload: Payload,
    },
    /// An attribute gets a value, also one that isn't a user's.
    SetAttr {
        /// The attribute, of 1 to 64 bytes.
        name: Bytes,
        /// The value.
        payload: Payload,
    },
    /// An attribute is taken away, also one that isn't a user's.
    RmAttr {
        /// The attribute, of 1 to 64 bytes.
        name: Bytes,
    },
    /// A key of the omap gets a value.
    SetOmap {
        /// The key, of 1 to 255 bytes.
        key: Bytes,
        /// The value.
        payload: Payload,
    },
    /// A key of the omap is taken away.
    RmOmap {
        /// The key, of 1 to 255 bytes.
        key: Bytes,
    },
    /// The omap's header becomes the payload.
    SetHeader {
        /// The new header.
        payload: Payload,
    },
}

impl Clone for Damage {
    ghost is_clone = { λ a b. b ≡ a };

    fn clone(&self) -> Result<Damage, AllocError> {
        match self {
            Damage::Lose => Ok(Damage::Lose),
            Damage::Flip { at, xor } => Ok(Damage::Flip { at: *at, xor: *xor }),
            Damage::Cut { size } => Ok(Damage::Cut { size: *size }),
            Damage::SetData { payload } => {
                let payload = payload.clone()?;
                Ok(Damage::SetData { payload })
            }
            Damage::SetAttr { name, payload } => {
                let name = name.clone()?;
                let payload = payload.clone()?;
                Ok(Damage::SetAttr { name, payload })
            }
            Damage::RmAttr { name } => {
                let name = name.clone()?;
                Ok(Damage::RmAttr { name })
            }
            Damage::SetOmap { key, payload } => {
                let key = key.clone()?;
                let payload = payload.clone()?;
                Ok(Damage::SetOmap { key, payload })
            }
            Damage::RmOmap { key } => {
                let key = key.clone()?;
                Ok(Damage::RmOmap { key })
            }
            Damage::SetHeader { payload } => {
                let payload = payload.clone()?;
                Ok(Damage::SetHeader { payload })
            }
        }
    }
}
