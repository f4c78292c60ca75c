use crate::holder::Holder;
use sqlite_items::Items;

/// What claiming a slot answers.
#[derive(Debug, Drop)]
pub enum ClaimAnswer {
    /// The scrub holds a slot that was free.
    Claimed {
        /// The slot's number.
        slot: u8,
    },
    /// No slot is free.
    Denied {
        /// Who holds each slot, in the order of the slots.
        holders: Items<Holder>,
    },
    /// No such OSD is in the list.
    Unknown,
}
