/// What is answered where a scrub of a group is to be taken out of the queue.
#[derive(Clone, Copy, Debug, PartialEq, Eq, Drop)]
pub enum UnjobAnswer {
    /// It was taken out.
    Dropped,
    /// None of the group was there.
    None,
}
