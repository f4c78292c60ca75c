/// How a scan passed a copy.
#[derive(Clone, Copy, Debug, PartialEq, Eq, Drop)]
pub enum Mark {
    /// All that the scan looks at was read.
    Fine,
    /// The device failed at its size or at its attributes.
    StatError,
    /// The device failed at its data or at its omap.
    ReadError,
}
