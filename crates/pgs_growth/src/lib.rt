//! What edits of a copy take from its bytes, and add to them, told from what they change alone.
#![tactic(auto)]

mod amounts;
mod edits;
mod growths;
mod parts;

pub use edits::growth;
pub use growths::Growth;
