//! What a client asks for: requests with their ids, what a write does as it is spelled, and why a write is turned away.
#![tactic(auto)]

mod answers;
mod op;
mod payload;
mod req_id;
mod snap_context;
mod snaps;
mod version;

pub use answers::{Declined, Refusal};
pub use op::Op;
pub use payload::Payload;
pub use req_id::ReqId;
pub use snap_context::SnapContext;
pub use snaps::Snaps;
pub use version::Version;
