//! What operators see of a scrub's findings: the lists of inconsistent objects and of inconsistent snapshots, as JSON texts.
#![tactic(auto)]

mod members;
mod obj;
mod object;
mod shards;
mod snap;
#[cfg(test)]
mod tests;
mod words;

pub use obj::list_obj;
pub use snap::list_snap;
