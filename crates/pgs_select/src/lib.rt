//! What is wrong with one copy of an object, and which copy is chosen as the one that the others are held against.
#![tactic(auto)]

mod choice;
mod errors;
mod judged;

pub use choice::choose;
pub use errors::{are_apart, errors_beside, told};
pub use judged::Judged;
