/// A field that isn't whole: fewer bytes are left than it has.
#[derive(Clone, Copy, Debug, PartialEq, Eq, Drop)]
pub struct Short {
    /// The place at which it starts: how many bytes of the text stand before it.
    pub at: usize,
}
