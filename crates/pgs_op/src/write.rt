use pgs_name::Family;
use pgs_request::{Op, ReqId, SnapContext};

/// A write that a client asks for.
#[derive(Drop)]
pub struct Write {
    pub id: ReqId,
    /// The object that is written, of which the head is meant.
    pub family: Family,
    /// The snapshots that the client knows of.
    pub context: SnapContext,
    pub op: Op,
}
