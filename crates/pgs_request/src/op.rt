ghost use Rattle.std.specs.Prelude.{◌≡◌, ◌<◌, ◌^◌};
ghost use Rattle.pgs_request.specs.Ops.{payload_size};

use crate::payload::Payload;
use pgs_bytes::Bytes;
use std::alloc::AllocError;

/// What a write does to the head of an object.
#[derive(Drop)]
pub enum Op {
    /// The data becomes the payload.
    Full {
        /// The new data.
        payload: Payload,
    },
    /// The payload is put over the data from a place on. Where it is empty the data stays.
    Write {
        /// The place of its first byte.
        at: u32,
        /// What is put there.
        payload: Payload,
    },
    /// The data is cut to a size, or filled up to it with zero bytes.
    Truncate {
        /// The size in bytes.
        size: u32,
    },
    /// A user attribute gets a value.
    SetAttr {
        /// The attribute, of 2 to 64 bytes, the first of them an underscore.
        name: Bytes,
        /// The value.
        payload: Payload,
    },
    /// A user attribute is taken away.
    RmAttr {
        /// The attribute.
        name: Bytes,
    },
    /// A key of the omap gets a value.
    SetOmap {
        /// The key, of 1 to 255 bytes.
        key: Bytes,
        /// The value.
        payload: Payload,
    },
    /// A key of the omap is taken away.
    RmOmap {
        /// The key.
        key: Bytes,
    },
    /// The omap's header becomes the payload.
    SetHeader {
        /// The new header.
        payload: Payload,
    },
    /// The head is removed. Where clones are left it stays as a whiteout.
    Remove,
}

impl Op {
    /// The bytes of its payload: what a log counts of it.
    pub fn payload_size(&self) -> u64
        ensures size { result ≡ payload_size self.now }
        ensures small { result < 2 ^ 63 }
    {
        match self {
            Op::Full { payload } => payload.size(),
            Op::Write { payload, .. } => payload.size(),
            Op::SetAttr { payload, .. } => payload.size(),
            Op::SetOmap { payload, .. } => payload.size(),
            Op::SetHeader { payload } => payload.size(),
            Op::Truncate { .. } => 0,
            Op::RmAttr { .. } => 0,
            Op::RmOmap { .. } => 0,
            Op::Remove => 0,
        }
    }
}

impl Clone for Op {
    ghost is_clone = { λ a b. b ≡ a };

    fn clone(&self) -> Result<Op, AllocError> {
        match self {
            Op::Full { payload } => {
                let payload = payload.clone()?;
                Ok(Op::Full { payload })
            }
            Op::Write { at, payload } => {
                let payload = payload.clone()?;
                Ok(Op::Write { at: *at, payload })
            }
            Op::Truncate { size } => Ok(Op::Truncate { size: *size }),
            Op::SetAttr { name, payload } => {
                let name = name.clone()?;
                let payload = payload.clone()?;
                Ok(Op::SetAttr { name, payload })
            }
            Op::RmAttr { name } => {
                let name = name.clone()?;
                Ok(Op::RmAttr { name })
            }
            Op::SetOmap { key, payload } => {
                let key = key.clone()?;
                let payload = payload.clone()?;
                Ok(Op::SetOmap { key, payload })
            }
            Op::RmOmap { key } => {
                let key = key.clone()?;
                Ok(Op::RmOmap { key })
            }
            Op::SetHeader { payload } => {
                let payload = payload.clone()?;
                Ok(Op::SetHeader { payload })
            }
            Op::Remove => Ok(Op::Remove),
        }
    }
}
