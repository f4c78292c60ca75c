//! How large a chunk of a scrub is, and where it ends.
#![tactic(auto)]

mod ask;
mod ending;
mod kind;
mod limits;
mod listing;
mod selection;
mod settings;
mod starting;

pub use ask::Ask;
pub use kind::Kind;
pub use limits::{Limits, limit_after};
pub use listing::is_full;
pub use selection::select;
pub use settings::Settings;
