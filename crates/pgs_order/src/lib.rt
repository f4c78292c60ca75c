//! Which lines of a script may follow which, line by line.
#![tactic(auto)]

mod declarations;
mod limits;
mod members;
mod order;
mod step_script;

pub use declarations::{Declarations, Fail, Group, Osd};
pub use order::{after, allows, nothing_said, passed, passes};
pub use step_script::StepScript;
