//! The names of what a scrub finds, in their order, and sets of them.
#![tactic(auto)]

mod object_error;
mod object_errors;
mod row;
mod shard_error;
mod shard_errors;
mod snap_error;
mod snap_errors;
mod snap_finding;
mod table;

pub use object_error::{ObjectError, object_rows};
pub use object_errors::ObjectErrors;
pub use row::Row;
pub use shard_error::{ShardError, shard_rows};
pub use shard_errors::ShardErrors;
pub use snap_error::{SnapError, snap_rows};
pub use snap_errors::SnapErrors;
pub use snap_finding::SnapFinding;
