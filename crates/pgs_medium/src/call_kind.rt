/// A kind of call that a device may fail.
#[derive(Clone, Copy, Debug, PartialEq)]
pub enum CallKind {
    /// A write of an item.
    Write,
    /// The next position of a listing.
    List,
    /// The size of a copy's data.
    Stat,
    /// The attributes of a copy.
    Attrs,
    /// A part of a copy's data.
    Read,
    /// A page of a copy's omap.
    Omap,
}
