use pgs_chunk::Ask;
use pgs_medium::Item;
use sqlite_items::Items;

/// What a member is given that pulls.
#[derive(Drop)]
pub struct Pulled {
    /// The number up to which it had pulled before.
    pub from: u64,
    /// The number of the last item of the log.
    pub to: u64,
    /// The items between, the oldest first.
    pub items: Items<Item>,
    /// What it is asked for, where a chunk is open.
    pub ask: Option<Ask>,
    /// Whether it wasn't given all of this before.
    pub is_new: bool,
}
