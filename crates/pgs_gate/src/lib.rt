//! The gate of an open chunk: what becomes of a client's write while a scrub has a chunk open, and the writes that wait for it to close.
#![tactic(auto)]

mod gate;
mod limits;
mod park_error;
#[cfg(test)]
mod tests;
mod verdict;
mod waiting;

pub use gate::Gate;
pub use limits::MOST_PARKED;
pub use park_error::ParkError;
pub use verdict::Verdict;
pub use waiting::Waiting;
