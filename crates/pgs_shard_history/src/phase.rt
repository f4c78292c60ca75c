/// Where the scan of a shard's newest ask is.
#[derive(Clone, Copy, Debug, PartialEq, Drop)]
pub enum Phase {
    /// There is no ask; or its scan has not begun, or an item of its range dropped it, and it is to begin anew.
    Waiting,
    /// Between two copies.
    Between,
    /// A copy was found, and isn't passed.
    Reading,
    /// It ended with a map, which isn't handed.
    Mapped {
        /// How many events the shard then had.
        place: u64,
        /// The number of the item that was then applied last.
        applied: u64,
    },
    /// It ended with a fault at a listing, which isn't handed.
    Failed {
        /// How many events the shard then had.
        place: u64,
        /// The number of the item that was then applied last.
        applied: u64,
        /// The device's count of faults.
        count: u64,
    },
    /// What it ended with was handed, or an item of its range dropped its map.
    Over,
}
