use pgs_lines::Kind;

/// What is answered where the next scrub is to be picked from the queue.
#[derive(Clone, Copy, Drop)]
pub enum PickAnswer {
    /// This one was picked.
    Picked {
        /// Its group.
        group: u32,
        /// What it looks at.
        kind: Kind,
    },
    /// None may be picked at this moment.
    None,
}
