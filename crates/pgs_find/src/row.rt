/// What is told of a name in the table of its kind.
#[derive(Clone, Copy, Debug)]
pub struct Row<N> {
    pub name: N,
    /// How it is written in lists.
    pub word: &'static str,
    /// Its place among the names of its kind, from 0.
    pub place: u8,
    /// The bit by which sets hold it.
    pub bit: u16,
}
