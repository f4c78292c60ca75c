/// What a scrub is answered of which a device failed.
#[derive(Clone, Copy, Debug, PartialEq, Drop)]
pub enum FaultAnswer {
    /// The scrub has ended, or that chunk isn't open.
    Stale {
        /// The number of the chunk that is.
        chunk_now: Option<u64>,
    },
    /// The scrub ends.
    Ended,
}
