use crate::mark::Mark;
use crate::position::Position;

/// What an OSD is answered that takes one step of its scan.
#[derive(Drop)]
pub enum ScanAnswer {
    /// It was asked for no map, or its scan has ended.
    Idle,
    /// An item of the log that the scan needs isn't stored.
    NotYet {
        /// The number of the last item that it stored.
        applied: u64,
        /// The number of the item that is needed.
        needed: u64,
    },
    /// The next position of the range was found.
    Found {
        /// The position.
        position: Position,
    },
    /// A part of its copy was read, and more is left.
    More,
    /// Its copy was passed.
    Passed {
        /// The position.
        position: Position,
        /// How its reading ended.
        mark: Mark,
    },
    /// No position of the range was left, and the map is there.
    Done,
    /// The device failed at a listing, and the scan ended.
    ListFault {
        /// The device's count of faults.
        count: u64,
    },
}
