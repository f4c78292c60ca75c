//! What is wrong with the snapshots of objects: heads and clones of one family, held against the head's snapset.
#![tactic(auto)]

mod checking;
mod cutting;
mod listing;
mod looking;
mod noting;
mod view;

pub use checking::check;
pub use view::View;
