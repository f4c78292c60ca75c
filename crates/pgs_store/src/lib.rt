//! Stores of objects in memory: the copies of each family, changed by effects on a family and by damage to a copy, and listed in the order of
//! positions.
#![tactic(auto)]

mod firsts;
mod store;

pub use store::Store;
