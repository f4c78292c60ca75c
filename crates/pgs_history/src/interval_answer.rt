/// What a new acting list is answered.
#[derive(Clone, Copy, Debug, PartialEq, Drop)]
pub enum IntervalAnswer {
    /// No epoch follows.
    LastEpoch {
        /// The epoch.
        epoch: u32,
    },
    /// An OSD that would join has not told of all the log.
    NotCaughtUp {
        /// The first such OSD.
        osd: u32,
        /// The number up to which it told.
        told: u64,
        /// The number of the log's last item.
        length: u64,
    },
    /// It is the acting list from now on.
    Changed {
        /// The new epoch.
        epoch: u32,
        /// The scrub that ends with it.
        ends: Option<u64>,
    },
}
