/// How far a copy was read: what its entry tells beside its position.
#[derive(Clone, Copy, Debug, PartialEq, Eq, Drop)]
pub enum Outcome {
    /// Its size and attributes; nothing was asked of its data and omap.
    Undigested,
    /// Its size and attributes, and both digests.
    Digested,
    /// The device failed at its size or its attributes.
    StatFailed,
    /// The device failed at its data or its omap: size and attributes alone.
    ReadFailed,
}
