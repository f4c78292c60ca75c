/// What a scrub looks at, and whether it mends what it finds.
#[derive(Clone, Copy, PartialEq)]
pub enum Kind {
    /// Names, sizes and attributes.
    Shallow,
    /// The data too.
    Deep,
    /// The data too, and what is wrong is mended.
    Repair,
}
