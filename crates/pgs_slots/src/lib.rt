//! The slots of OSDs: how many scrubs each may take part in at once, and which scrubs hold them.
#![tactic(auto)]

mod claim_answer;
mod holder;
mod limits;
mod osd_slots;
mod row;
mod slot_list;
#[cfg(test)]
mod tests;

pub use claim_answer::ClaimAnswer;
pub use holder::Holder;
pub use limits::MOST_SLOTS;
pub use osd_slots::OsdSlots;
pub use row::Row;
pub use slot_list::SlotList;
