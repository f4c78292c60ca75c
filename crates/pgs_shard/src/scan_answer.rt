use pgs_name::ObjectId;
use pgs_scan::Mark;

/// What a small step of a shard's scan came to.
#[derive(Drop)]
pub enum ScanAnswer {
    /// There is no ask, or its scan has ended.
    Idle,
    /// An item that the ask needs isn't applied.
    NotYet {
        /// The number of the item that was applied last.
        applied: u64,
        /// The number of the item that is needed.
        needed: u64,
    },
    /// The next position of the range was found.
    Found {
        id: ObjectId,
    },
    /// A part of its copy was read, and more is left.
    More,
    /// Its copy was passed.
    Passed {
        id: ObjectId,
        /// How its reading ended.
        mark: Mark,
    },
    /// No position of the range was left: the scan ended with its map.
    Done,
    /// The device failed at a listing: the scan ended with this fault.
    ListFault {
        /// The device's count of faults.
        count: u64,
    },
}
