use pgs_medium::FailingCall;
use sqlite_items::Items;

/// What the shard of an OSD is made with.
#[derive(Drop)]
pub struct OsdDevice {
    pub osd: u32,
    /// The calls of its device that are to fail.
    pub failing: Items<FailingCall>,
}
