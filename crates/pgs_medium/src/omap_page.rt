use pgs_bytes::Bytes;
use sqlite_items::Items;

/// A page of a copy's omap.
#[derive(Drop)]
pub struct OmapPage {
    /// The omap's header.
    pub header: Bytes,
    /// At most 256 pairs of a key and its value, in the order of the keys' bytes.
    pub pairs: Items<(Bytes, Bytes)>,
    /// Whether more pairs follow.
    pub more: bool,
}
