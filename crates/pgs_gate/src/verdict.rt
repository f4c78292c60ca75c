/// What becomes of a client's write while a chunk may be open.
#[derive(Clone, Copy, Debug, PartialEq, Drop)]
pub enum Verdict {
    /// It doesn't meet the open chunk, and is done at once.
    Pass,
    /// It is done at once, and the open chunk is dropped.
    Preempts,
    /// It is parked until the open chunk closes.
    Waits,
}
