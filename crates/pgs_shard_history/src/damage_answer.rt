/// What damage to a copy is answered.
#[derive(Clone, Copy, Debug, PartialEq, Drop)]
pub enum DamageAnswer {
    /// It was done.
    Damaged,
    /// It wasn't: a scan is reading the copy.
    BeingRead,
    /// It wasn't: the shard's copies would hold more than before, and more than they may.
    ShardFull {
        /// The bytes that they would hold.
        bytes: u64,
    },
}
