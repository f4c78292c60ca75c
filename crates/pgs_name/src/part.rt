/// A part of an object's name that is a text.
#[derive(Debug, Clone, Copy, PartialEq)]
pub enum Part {
    /// The namespace.
    Space,
    /// The locator key.
    Key,
    Name,
}
