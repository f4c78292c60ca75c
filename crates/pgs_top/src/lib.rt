//! What the program does: it reads a script, replays it, and writes what happened.
#![tactic(auto)]

mod ended;
mod histories;
mod keep;
mod opening;
mod replaying;
mod text;
mod top_call;

pub use ended::{Ended, Status};
pub use histories::Histories;
pub use replaying::replay;
pub use top_call::top;
