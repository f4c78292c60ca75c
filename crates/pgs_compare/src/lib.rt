//! What comparing the copies of a range finds: the errors of each copy, what differs among the copies of a position, and what is
//! wrong with the snapshots.
#![tactic(auto)]

mod attr_names;
mod attrs;
mod finding;
mod judging;
mod objects;
mod positions;
mod report;
mod shards;

pub use report::Report;
