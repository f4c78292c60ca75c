/// What a group is answered whose acting members are to change.
#[derive(Clone, Copy, Debug, PartialEq, Eq, Drop)]
pub enum IntervalAnswer {
    /// They changed.
    Changed {
        /// The epoch from then on.
        epoch: u32,
        /// The number of the scrub that ended with it.
        ends: Option<u64>,
    },
    /// A member that is to join has not told that it stored the whole log.
    NotCaughtUp {
        /// The first such OSD.
        osd: u32,
        /// The number of the last item that it told of.
        told: u64,
        /// How many items the log has.
        length: u64,
    },
    /// No epoch comes after the present one.
    LastEpoch {
        /// The present epoch.
        epoch: u32,
    },
}
