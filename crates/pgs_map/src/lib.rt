//! What a member tells of the copies in a range: each position with its copy's size, attributes and digests.
#![tactic(auto)]

mod digests;
mod entry;
mod making;
mod scrub_map;
mod searching;

pub use digests::{data_digest, omap_digest};
pub use entry::Entry;
pub use making::entry_of;
pub use scrub_map::ScrubMap;
