/// What an OSD is answered that stores the next item that it was sent.
#[derive(Clone, Copy, Debug, PartialEq, Eq, Drop)]
pub enum ApplyAnswer {
    /// It stored the item.
    Applied {
        /// The item's number.
        number: u64,
        /// The chunk whose scan or map it dropped.
        drops: Option<u64>,
    },
    /// It was sent no further item.
    NotYet {
        /// The number of the last item that it stored.
        applied: u64,
    },
    /// Its device failed.
    DeviceFault {
        /// The device's count of faults.
        count: u64,
    },
}
