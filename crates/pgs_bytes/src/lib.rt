//! Byte strings as values, and the facts about lists, options and tests that all crates share.
#![tactic(auto)]

mod bytes;
mod plain;

pub use bytes::Bytes;
pub use plain::{is_plain, is_plain_byte};
