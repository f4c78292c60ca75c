/// What a scrub is answered that is to begin.
#[derive(Clone, Copy, Debug, PartialEq, Drop)]
pub enum BeginAnswer {
    /// Another scrub of the group reserves or runs.
    Busy {
        /// Its number.
        serial: u64,
    },
    /// It began, and reserves.
    Began {
        /// Its number, from 1.
        serial: u64,
        /// The first acting OSD, at which it claims first.
        first: u32,
    },
}
