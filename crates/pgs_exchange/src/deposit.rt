use pgs_bytes::Bytes;

/// What a scan ended with, as it is handed.
#[derive(Drop)]
pub enum Handed {
    /// A map of the range, as bytes.
    Map {
        text: Bytes,
    },
    /// A fault at a listing.
    ListFault {
        /// The device's count of faults.
        count: u64,
    },
}

/// What a member hands to its group of a scan that ended.
#[derive(Drop)]
pub struct Deposit {
    /// The member's number.
    pub osd: u32,
    /// The number of the scrub.
    pub serial: u64,
    /// The number of the chunk.
    pub chunk: u64,
    /// The number of the item that was applied last when the scan ended.
    pub applied: u64,
    /// How many events the shard's history then had.
    pub place: u64,
    pub found: Handed,
}
