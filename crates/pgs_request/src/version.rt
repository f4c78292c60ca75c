/// The version of an item of a log: the epoch in which it was accepted, and its number.
#[derive(Clone, Copy, Debug, PartialEq, Eq, Drop)]
pub struct Version {
    /// The epoch, from 1.
    pub epoch: u32,
    /// The number in the log, from 1.
    pub number: u64,
}
