/// Why an item was not appended to a log.
#[derive(Clone, Copy, Debug, PartialEq, Drop)]
pub enum LogError {
    /// The log would count more bytes than it may.
    LogFull {
        /// What it would count.
        bytes: u64,
    },
    /// Memory ran out. The log may have room.
    Memory,
}
