/// The most writes that are parked at once.
pub const MOST_PARKED: usize = 1_024;
