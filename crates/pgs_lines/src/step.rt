use crate::basic::Basic;
use crate::kind::Kind;

/// A line that does something.
#[derive(Drop)]
pub enum Step {
    /// One thing is done.
    Basic {
        /// What is done.
        basic: Basic,
    },
    /// Every member of the group stores and tells of all that was written.
    Settle {
        /// The group.
        group: u32,
    },
    /// The group is scrubbed once, from one end to the other.
    Sweep {
        /// The group.
        group: u32,
        /// What is looked at.
        kind: Kind,
    },
    /// What the scrubs of the group found of its objects' copies is listed.
    ListObj {
        /// The group.
        group: u32,
    },
    /// What they found of its objects' snapshots is listed.
    ListSnap {
        /// The group.
        group: u32,
    },
}
