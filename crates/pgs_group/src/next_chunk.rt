use pgs_history::Cause;
use pgs_range::Bound;

/// What a caller is told that is to open the next chunk.
#[derive(Drop)]
pub enum NextChunk {
    /// The scrub has ended.
    Over {
        /// By this.
        cause: Cause,
    },
    /// The scrub reserves.
    StillReserving {
        /// The OSD at which it claims next.
        osd: u32,
    },
    /// A chunk is open.
    Already {
        /// Its number.
        chunk: u64,
    },
    /// The primary is to list its positions.
    Next {
        /// The primary.
        primary: u32,
        /// Where the chunk begins.
        start: Bound,
        /// How many positions it may have.
        limit: u32,
    },
}
