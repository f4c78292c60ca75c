//! One member's store with its history: the items that it was fed, applied in order to a device that may fail; damage; and the scan
//! of the chunk that it was asked for last, step by step.
#![tactic(auto)]

mod applied;
mod apply_error;
mod damaging;
mod holding;
mod items_beyond;
mod list_error;
mod listing;
mod scan;
mod scan_answer;
mod scan_due;
mod shard;
mod writing;

pub use applied::Applied;
pub use apply_error::ApplyError;
pub use list_error::ListError;
pub use scan_answer::ScanAnswer;
pub use shard::Shard;
