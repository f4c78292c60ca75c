ghost use Rattle.std.specs.Prelude.{◌≡◌, ◌<◌, ◌^◌, IfOk, replicate};
ghost use Rattle.pgs_request.specs.Payloads.{bytes_of, size_of};

use pgs_bytes::Bytes;
use std::alloc::{AllocError, Global};

/// The bytes that a line gives, kept as it spells them: a fill takes no memory for its bytes.
#[derive(Drop)]
pub enum Payload {
    /// `text:` and the bytes themselves, each from 0x21 to 0x7E.
    Text {
        /// What stands behind `text:`.
        bytes: Bytes,
    },
    /// `hex:` and two lower case digits for each byte.
    Hex {
        /// The bytes.
        bytes: Bytes,
    },
    /// `fill:N:BB`: N times one byte.
    Fill {
        /// How many bytes.
        count: u32,
        /// The byte.
        byte: u8,
    },
}

impl Payload {
    /// How many bytes it stands for.
    pub fn size(&self) -> u64
        ensures size { result ≡ size_of self.now }
        ensures small { result < 2 ^ 63 }
    {
        match self {
            Payload::Text { bytes } => bytes.as_slice().len() as u64,
            Payload::Hex { bytes } => bytes.as_slice().len() as u64,
            Payload::Fill { count, .. } => u64::from(*count),
        }
    }

    /// The bytes that it stands for.
    pub fn to_bytes(&self, alloc: Global) -> Result<Bytes, AllocError>
        ensures { IfOk result (λ b. b ≡ bytes_of self.now) }
    {
        match self {
            Payload::Text { bytes } => bytes.clone(),
            Payload::Hex { bytes } => bytes.clone(),
            Payload::Fill { count, byte } => filled(alloc, *count, *byte),
        }
    }
}

// So many times one byte.
fn filled(alloc: Global, count: u32, byte: u8) -> Result<Bytes, AllocError>
    ensures { IfOk result (λ b. b ≡ replicate count byte) }
{
    let bytes = Vec::from_elem(alloc, byte, count as usize)?;
    Ok(Bytes::from_vec(bytes))
}

impl Clone for Payload {
    ghost is_clone = { λ a b. b ≡ a };

    fn clone(&self) -> Result<Payload, AllocError> {
        match self {
            Payload::Text { bytes } => {
                let bytes = bytes.clone()?;
                Ok(Payload::Text { bytes })
            }
            Payload::Hex { bytes } => {
                let bytes = bytes.clone()?;
                Ok(Payload::Hex { bytes })
            }
            Payload::Fill { count, byte } => Ok(Payload::Fill {
                count: *count,
                byte: *byte,
            }),
        }
    }
}
