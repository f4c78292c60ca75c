/// What a member is answered that gives its map of a chunk.
#[derive(Clone, Copy, Debug, PartialEq, Drop)]
pub enum TakeAnswer {
    /// That chunk isn't open.
    Stale {
        /// The number of the one that is.
        chunk_now: Option<u64>,
    },
    /// The map was taken, in place of an earlier one of this member and chunk.
    Taken,
}
