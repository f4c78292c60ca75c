/// What a further step of reading a copy came to.
#[derive(Clone, Copy, Debug, PartialEq, Drop)]
pub enum ReadingStep {
    /// More is left.
    More,
    /// The whole copy is read.
    Whole,
    /// The device failed.
    Failed,
}
