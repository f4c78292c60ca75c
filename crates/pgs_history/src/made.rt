use pgs_chunk::Limits;
use sqlite_items::Items;

/// What a group was made with.
#[derive(Drop)]
pub struct Made {
    /// Its number.
    pub number: u32,
    /// The epoch in which it began.
    pub epoch: u32,
    /// Its members, each once. At first all of them are acting, in this order, and the first acting one is the primary.
    pub members: Items<u32>,
    /// How it is scrubbed.
    pub limits: Limits,
}
