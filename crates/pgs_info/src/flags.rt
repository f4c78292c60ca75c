/// Which parts of an object info follow its size.
#[derive(Clone, Copy, Debug, PartialEq, Eq, Drop)]
pub struct Flags {
    pub whiteout: bool,
    pub data_digest: bool,
    pub omap_digest: bool,
}

// The bits of the byte that tells them.
pub const WHITEOUT: u8 = 1;

pub const DATA_DIGEST: u8 = 2;

pub const OMAP_DIGEST: u8 = 4;
