//! Which clones an object has: its snapset, the one spelling of it, and the clone that a write makes.
#![tactic(auto)]

mod clone_facts;
mod clones;
mod cloning;
mod forming;
mod reading;
mod snapset;
mod writing;

pub use clone_facts::CloneFacts;
pub use clones::Clones;
pub use snapset::SnapSet;
