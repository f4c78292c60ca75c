/// What a group is answered whose scrub is to begin.
#[derive(Clone, Copy, Debug, PartialEq, Eq, Drop)]
pub enum BeginAnswer {
    /// A scrub began.
    Began {
        /// Its number among the scrubs of the group.
        serial: u64,
    },
    /// Another scrub of the group goes on.
    Busy {
        /// The number of that one.
        serial: u64,
    },
}
