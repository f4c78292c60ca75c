/// What became of the next item.
#[derive(Clone, Copy, Debug)]
pub enum Applied {
    /// All items that were fed are applied.
    NotYet {
        applied: u64,
    },
    /// The item of this number was applied.
    Applied {
        number: u64,
        /// The chunk whose scan or map it dropped.
        drops: Option<u64>,
    },
}
