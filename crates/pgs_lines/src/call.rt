/// What a call of a device does.
#[derive(Clone, Copy, Drop)]
pub enum Call {
    /// It finds the next stored copy.
    List,
    /// It tells a copy's size.
    Stat,
    /// It gives a copy's attributes.
    Attrs,
    /// It gives a piece of a copy's data.
    Read,
    /// It gives a page of a copy's omap.
    Omap,
    /// It stores an item.
    Write,
}
