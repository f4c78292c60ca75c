use pgs_bytes::Bytes;

/// What befalls the copy at one snap. All but the first three and the two that take something away make an empty copy first where none is
/// there; those do nothing there.
#[derive(Drop)]
pub enum Damage {
    /// Takes the copy away.
    Lose,
    /// Turns the bits of `xor` in the byte at `at`. Past the data's end it changes nothing.
    Flip { at: u32, xor: u8 },
    /// Cuts the data to a size. Data that is no longer stays as it is.
    Cut { size: u32 },
    /// Puts the bytes in place of the copy's data.
    SetData { bytes: Bytes },
    /// Gives an attribute a value.
    SetAttr { name: Bytes, value: Bytes },
    /// Takes an attribute away.
    RmAttr { name: Bytes },
    /// Gives a key of the omap a value.
    SetOmap { key: Bytes, value: Bytes },
    /// Takes a key of the omap away.
    RmOmap { key: Bytes },
    /// Puts the bytes in place of the omap's header.
    SetHeader { bytes: Bytes },
}
