/// The most bytes of an object's data after a write.
pub const OBJECT_MAX: u64 = 4_194_304;

/// The most bytes of the copies of a clean store.
pub const STORE_MAX: u64 = 33_554_432;

/// The most bytes that a log counts.
pub const LOG_MAX: u64 = 16_777_216;
