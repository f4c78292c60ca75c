//! What is known of an object beside its bytes: its object info, and the one spelling of it.
#![tactic(auto)]

mod flags;
mod info;
mod reading;
mod writing;

pub use info::ObjectInfo;
