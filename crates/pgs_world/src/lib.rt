//! The groups of a pool, the slots of its OSDs and the jobs that wait, changed by the steps of a script.
#![tactic(auto)]

mod saying;
mod world;

pub use world::World;
