/// What a damage is answered.
#[derive(Clone, Copy, Debug, PartialEq, Eq, Drop)]
pub enum DamageAnswer {
    /// The change was made.
    Damaged,
    /// A scan is reading the copy, and it stays as it was.
    BeingRead,
    /// The shard would be over the most that it may hold, and stays as it was.
    ShardFull {
        /// What it would hold, in bytes.
        bytes: u64,
    },
}
