use crate::call::Call;
use crate::step::Step;
use sqlite_items::Items;

/// A line of a script.
#[derive(Drop)]
pub enum Line {
    /// The pool has 2^bits groups.
    Pool {
        /// The number of bits.
        bits: u32,
    },
    /// There is such an OSD.
    Osd {
        /// Its number.
        osd: u32,
        /// How many scrubs may run on it at once, at least 1.
        slots: u32,
    },
    /// Which OSDs store a group.
    Group {
        /// The group.
        group: u32,
        /// The epoch in which it begins, at least 1.
        epoch: u32,
        /// Its members, at least one. The first is the primary.
        members: Items<u32>,
    },
    /// One call of the device by which an OSD stores a group fails.
    Fail {
        /// The group.
        group: u32,
        /// The OSD.
        osd: u32,
        /// What the call does.
        call: Call,
        /// Which call of those that do this, from 1.
        number: u32,
    },
    /// Something is done.
    Step {
        /// What is done.
        step: Step,
    },
    /// The script ends.
    End,
}
