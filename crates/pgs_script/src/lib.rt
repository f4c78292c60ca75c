//! The script that a text is.
#![tactic(auto)]

mod parse;

pub use parse::parse_steps;
pub use pgs_order::{Declarations, Fail, Group, Osd, StepScript};
