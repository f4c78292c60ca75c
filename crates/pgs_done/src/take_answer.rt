/// What an OSD is answered whose map of a chunk is to be taken.
#[derive(Clone, Copy, Debug, PartialEq, Eq, Drop)]
pub enum TakeAnswer {
    /// The map was taken.
    Taken {
        /// The number of the last item of the log that the OSD had stored.
        applied: u64,
        /// The map's place among the events of the OSD.
        place: u64,
    },
    /// The chunk that it is of isn't open.
    Stale {
        /// The chunk that is.
        chunk: Option<u64>,
    },
    /// The OSD has no map: its scan goes on, or it was asked for none.
    NotDone,
    /// The OSD's scan ended with a fault.
    Fault {
        /// The device's count of faults.
        count: u64,
    },
}
