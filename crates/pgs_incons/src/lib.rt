//! What scrubs found, by position: what is wrong with the copies of an object, and with the snapshots of one.
#![tactic(auto)]

mod chosen;
mod cut;
mod finding;
mod findings;
mod moving;
mod shard_finding;
mod within;

pub use chosen::Chosen;
pub use finding::Finding;
pub use findings::Findings;
pub use shard_finding::ShardFinding;
