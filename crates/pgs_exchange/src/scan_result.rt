use pgs_map::ScrubMap;

/// What a scan ended with.
#[derive(Drop)]
pub enum Found {
    /// A map of the range.
    Map {
        map: ScrubMap,
    },
    /// A fault at a listing.
    ListFault {
        /// The device's count of faults.
        count: u64,
    },
}

/// What a deposit tells, once its map is decoded.
#[derive(Drop)]
pub struct ScanResult {
    /// The member's number.
    pub osd: u32,
    /// The number of the scrub.
    pub serial: u64,
    /// The number of the chunk.
    pub chunk: u64,
    /// The number of the item that was applied last when the scan ended.
    pub applied: u64,
    /// How many events the shard's history then had.
    pub place: u64,
    pub found: Found,
}
