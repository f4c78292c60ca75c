//! What a copy tells of itself: its size, and what its attributes record.
#![tactic(auto)]

mod copy_facts;
mod infos;

pub use copy_facts::CopyFacts;
pub use infos::has_other_size;
