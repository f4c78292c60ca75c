/// What a scrub looks at.
#[derive(Clone, Copy, Drop)]
pub enum Kind {
    /// Sizes and attributes.
    Shallow,
    /// Sizes, attributes and the digests of what it reads.
    Deep,
}
