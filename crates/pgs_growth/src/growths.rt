/// Bytes that edits take from a copy and add to it.
#[derive(Clone, Copy, Debug, PartialEq, Eq)]
pub struct Growth {
    pub taken: u64,
    pub added: u64,
}
