/// What the next step of a shard's scan does.
#[derive(Clone, Copy, Debug, PartialEq, Drop)]
pub enum ScanDue {
    /// Nothing: there is no ask, or its scan has ended.
    Idle,
    /// Nothing yet: an item that the ask needs isn't applied.
    NotYet {
        /// The number of the item that was applied last.
        applied: u64,
        /// The number of the item that is needed.
        needed: u64,
    },
    /// It looks for the next position.
    Next,
    /// It reads the size and the attributes of the copy that was found.
    Stat,
    /// It reads the next part of the copy's data or of its omap.
    Read,
}
