//! What a write makes of the clean store, which is the store of the accepted writes alone: its effects, or why it is refused.
#![tactic(auto)]

mod clean_store;
mod effects;
mod finding;
mod head;
mod held;
mod holding;
mod infos;
mod limits;
mod making;
mod sizes;
mod write;
mod write_error;

pub use clean_store::CleanStore;
pub use head::Head;
pub use limits::{LOG_MAX, OBJECT_MAX, STORE_MAX};
pub use making::make_effects;
pub use write::Write;
pub use write_error::WriteError;
