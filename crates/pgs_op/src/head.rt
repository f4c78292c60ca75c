use pgs_info::ObjectInfo;
use pgs_snapset::SnapSet;

/// What a write finds of its object.
#[derive(Drop)]
pub struct Head {
    /// What is recorded of it, where that reads.
    pub info: Option<ObjectInfo>,
    /// Its clones, as they are recorded. Where nothing is, or nothing that reads, it has none.
    pub snapset: SnapSet,
    /// Whether there is a head that is no whiteout.
    pub exists: bool,
    /// The bytes of its data: 0 where it doesn't exist.
    pub size: u64,
}
