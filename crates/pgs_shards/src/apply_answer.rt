/// What applying the next item of an OSD came to.
#[derive(Clone, Copy, Debug, Drop)]
pub enum ApplyAnswer {
    /// All items that were fed are applied.
    NotYet {
        applied: u64,
    },
    /// The item of this number was applied.
    Applied {
        number: u64,
        /// The chunk whose scan or map it dropped.
        drops: Option<u64>,
    },
    /// The device failed, and the item waits.
    DeviceFault {
        /// The device's count of faults.
        count: u64,
    },
}
