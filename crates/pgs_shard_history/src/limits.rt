/// How many bytes the copies of a shard may hold.
pub const SHARD_MAX: u64 = 41_943_040;
