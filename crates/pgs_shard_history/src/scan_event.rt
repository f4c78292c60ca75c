use pgs_name::ObjectId;
use pgs_scan::Mark;

/// A small step of the scan of a shard's newest ask.
#[derive(Drop)]
pub enum ScanEvent {
    /// The next position of the ask's range was found.
    Found {
        id: ObjectId,
    },
    /// A part of its copy was read, and more is left.
    More,
    /// Its copy was passed.
    Passed {
        id: ObjectId,
        /// How its reading ended.
        mark: Mark,
    },
    /// No position of the range was left: the scan ended with its map.
    Done,
    /// The device failed at a listing, and its count of faults was this: the scan ended with this fault.
    ListFault {
        count: u64,
    },
}
