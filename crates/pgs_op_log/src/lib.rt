//! The log of a group: its items in the order of their numbers, the requests that they came from, and the bytes that it counts.
#![tactic(auto)]

mod copies;
mod group_log;
mod log_error;
mod newest;
mod requests;
mod tails;

pub use group_log::GroupLog;
pub use log_error::LogError;
