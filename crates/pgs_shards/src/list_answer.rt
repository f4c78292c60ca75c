use pgs_name::ObjectId;
use sqlite_items::Items;

/// What listing the positions of an OSD came to.
#[derive(Drop)]
pub enum ListAnswer {
    /// The positions, in order.
    Listed {
        ids: Items<ObjectId>,
    },
    /// The device failed at one of its calls.
    Fault {
        /// The device's count of faults.
        count: u64,
    },
}
