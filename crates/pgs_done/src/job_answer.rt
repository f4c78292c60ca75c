use pgs_lines::Kind;

/// What is answered where a scrub of a group is to be put into the queue.
#[derive(Clone, Copy, Drop)]
pub enum JobAnswer {
    /// It was put there.
    Queued,
    /// Another one of the group is there.
    Already {
        /// What that scrub looks at.
        kind: Kind,
        /// Its rank.
        rank: u8,
        /// The moment from which on it may be picked.
        moment: u32,
    },
}
