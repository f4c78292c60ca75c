use crate::context::Context;
use crate::damage::Damage;
use crate::kind::Kind;
use crate::object::Object;
use crate::snap::Snap;
use pgs_request::Op;
use sqlite_items::Items;

/// A line that does one thing.
#[derive(Drop)]
pub enum Basic {
    /// A client writes.
    Write {
        /// The client.
        client: u32,
        /// The client's number for this write: together they are the request's id.
        serial: u32,
        /// The object.
        object: Object,
        /// The snapshots that the client knows of.
        context: Context,
        /// What is done to its head.
        op: Op,
    },
    /// A client asks what became of its write.
    Collect {
        /// The group.
        group: u32,
        /// The client.
        client: u32,
        /// The client's number for the write.
        serial: u32,
    },
    /// An OSD is sent the items of the group's log that it lacks.
    Pull {
        /// The group.
        group: u32,
        /// The OSD.
        osd: u32,
    },
    /// An OSD stores the next item that it was sent.
    Apply {
        /// The group.
        group: u32,
        /// The OSD.
        osd: u32,
    },
    /// An OSD tells the group how far it stored.
    Tell {
        /// The group.
        group: u32,
        /// The OSD.
        osd: u32,
    },
    /// A stored copy changes.
    Damage {
        /// The group.
        group: u32,
        /// The OSD whose copy it is.
        osd: u32,
        /// The object.
        object: Object,
        /// The head or a clone.
        snap: Snap,
        /// The change.
        damage: Damage,
    },
    /// A scrub of a group begins.
    Begin {
        /// The group.
        group: u32,
        /// What the scrub looks at.
        kind: Kind,
    },
    /// The next chunk of a group's scrub is opened.
    Open {
        /// The group.
        group: u32,
    },
    /// An OSD takes one step of its scan of the chunk.
    Scan {
        /// The group.
        group: u32,
        /// The OSD.
        osd: u32,
    },
    /// The group takes the map that an OSD made of the chunk.
    Take {
        /// The group.
        group: u32,
        /// The OSD.
        osd: u32,
    },
    /// The last chunk of a group's scrub is closed.
    Close {
        /// The group.
        group: u32,
    },
    /// From now on these members of a group act.
    Interval {
        /// The group.
        group: u32,
        /// The OSDs, at least one. The first is the primary.
        acting: Items<u32>,
    },
    /// A group's scrub claims a slot of the OSD that comes next.
    Claim {
        /// The group.
        group: u32,
    },
    /// An OSD gets a slot back that an ended scrub of a group holds.
    Release {
        /// The group.
        group: u32,
        /// The OSD.
        osd: u32,
    },
    /// A scrub of a group is put into the queue.
    Job {
        /// The group.
        group: u32,
        /// What the scrub looks at.
        kind: Kind,
        /// Its rank, at most 255: lower ones are picked first.
        rank: u8,
        /// The moment from which on it may be picked.
        moment: u32,
    },
    /// A group's scrub is taken out of the queue.
    Unjob {
        /// The group.
        group: u32,
    },
    /// The next scrub is picked from the queue.
    Pick {
        /// The moment.
        moment: u32,
    },
}
