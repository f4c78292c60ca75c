use crate::obj_copy::ObjCopy;
use pgs_bytes::Bytes;
use std::alloc::AllocError;

/// What one step of an item does to the copy at its snap. All but `Clone` and `Remove` make an empty copy first where none is there.
#[derive(Drop)]
pub enum Effect {
    /// Leaves an empty copy.
    Clear,
    /// Puts the bytes in place of the copy's data.
    SetData { bytes: Bytes },
    /// Puts the bytes over the data from a place on; up to the place the data is filled up with zero bytes.
    Write { at: u32, bytes: Bytes },
    /// Cuts the data to a size, or fills it up to that with zero bytes.
    Truncate { size: u32 },
    /// Gives an attribute its value.
    SetAttr { name: Bytes, value: Bytes },
    /// Takes an attribute away.
    RmAttr { name: Bytes },
    /// Gives a key of the omap its value.
    SetOmap { key: Bytes, value: Bytes },
    /// Takes a key of the omap away.
    RmOmap { key: Bytes },
    /// Puts the bytes in place of the omap's header.
    SetHeader { bytes: Bytes },
    /// Makes the copy equal to the head that is stored beside it, with the object info of the clone and without the snapset. Where
    /// no head is, the copy goes.
    Clone { info: Bytes },
    /// Takes the copy away.
    Remove,
    /// Puts a whole copy in its place.
    Install { copy: ObjCopy },
}

impl Clone for Effect {
    ghost use Rattle.std.specs.Prelude.{◌≡◌};

    ghost is_clone = { λ a b. b ≡ a };

    fn clone(&self) -> Result<Effect, AllocError> {
        match self {
            Effect::Clear => Ok(Effect::Clear),
            Effect::SetData { bytes } => {
                let bytes = bytes.clone()?;
                Ok(Effect::SetData { bytes })
            }
            Effect::Write { at, bytes } => {
                let bytes = bytes.clone()?;
                Ok(Effect::Write { at: *at, bytes })
            }
            Effect::Truncate { size } => Ok(Effect::Truncate { size: *size }),
            Effect::SetAttr { name, value } => {
                let name = name.clone()?;
                let value = value.clone()?;
                Ok(Effect::SetAttr { name, value })
            }
            Effect::RmAttr { name } => {
                let name = name.clone()?;
                Ok(Effect::RmAttr { name })
            }
            Effect::SetOmap { key, value } => {
                let key = key.clone()?;
                let value = value.clone()?;
                Ok(Effect::SetOmap { key, value })
            }
            Effect::RmOmap { key } => {
                let key = key.clone()?;
                Ok(Effect::RmOmap { key })
            }
            Effect::SetHeader { bytes } => {
                let bytes = bytes.clone()?;
                Ok(Effect::SetHeader { bytes })
            }
            Effect::Clone { info } => {
                let info = info.clone()?;
                Ok(Effect::Clone { info })
            }
            Effect::Remove => Ok(Effect::Remove),
            Effect::Install { copy } => {
                let copy = copy.clone()?;
                Ok(Effect::Install { copy })
            }
        }
    }
}
