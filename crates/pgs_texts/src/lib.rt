//! What a text of lines means, over any grammar of lines: what it says, or its first refused line.
#![tactic(auto)]

mod script_error;

pub use script_error::ScriptError;
