//! The kinds of lines of a script: their fields, how each is spelled, and their readers.
#![tactic(auto)]

mod basic;
mod call;
mod context;
mod damage;
mod kind;
mod line;
mod object;
mod read;
mod snap;
mod step;

pub use basic::Basic;
pub use call::Call;
pub use context::Context;
pub use damage::Damage;
pub use kind::Kind;
pub use line::Line;
pub use object::Object;
pub use read::line_in;
pub use snap::Snap;
pub use step::Step;
