/// What a group is answered that is to give a slot of an OSD back.
#[derive(Clone, Copy, Debug, PartialEq, Eq, Drop)]
pub enum ReleaseAnswer {
    /// The slot was given back.
    Released {
        /// The number of the scrub that held it.
        serial: u64,
    },
    /// No ended scrub of the group holds a slot of the OSD.
    NotHeld,
}
