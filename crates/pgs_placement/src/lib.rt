//! A placement group with the shards of its members, changed by the steps of a script that name it.
#![tactic(auto)]

mod naming;
mod placement_group;
mod saying;
mod scans;

pub use naming::{family_of, kind_of};
pub use placement_group::PlacementGroup;
