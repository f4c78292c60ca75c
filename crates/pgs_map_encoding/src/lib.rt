//! Scrub maps as bytes: how a member's map is encoded, and how it is read again.
#![tactic(auto)]

mod attrs_reading;
mod bounds_reading;
mod bounds_writing;
mod encoding;
mod entries_reading;
mod entries_writing;
mod fits;
mod map_reading;
mod map_writing;
mod outcome;
mod outcomes;

pub use encoding::{decode_map, encode_map};
