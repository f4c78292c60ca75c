use pgs_chunk::Kind;

/// A scrub of a group that is to be done.
#[derive(Clone, Copy, PartialEq)]
pub struct Job {
    pub group: u32,
    pub kind: Kind,
    /// How urgent it is: a lower rank goes first.
    pub rank: u8,
    /// The moment before which it isn't picked.
    pub not_before: u32,
}
