//! The digest of bytes by tables, piece by piece, and of a byte without them.
#![tactic(auto)]

mod crc;
mod shifts;
mod tables;

pub use crc::Crc;
pub use shifts::feed;
pub use tables::Tables;
