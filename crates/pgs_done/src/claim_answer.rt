use crate::holder::Holder;
use sqlite_items::Items;

/// What a group is answered whose scrub is to claim a slot of the OSD that comes next.
#[derive(Drop)]
pub enum ClaimAnswer {
    /// It got one, and others are still to be claimed.
    Claimed {
        /// The OSD.
        osd: u32,
        /// The number of the slot.
        slot: u8,
    },
    /// It got the last one.
    Reserved {
        /// The OSD.
        osd: u32,
        /// The number of the slot.
        slot: u8,
    },
    /// No slot of the OSD is free.
    Denied {
        /// The OSD.
        osd: u32,
        /// The scrubs that hold its slots, in order.
        holders: Items<Holder>,
    },
    /// No scrub of the group claims slots.
    NoClaim,
}
