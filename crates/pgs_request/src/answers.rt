use crate::version::Version;

/// Why a write makes no effects. Sizes are in bytes.
#[derive(Clone, Copy, Debug, PartialEq, Eq, Drop)]
pub enum Refusal {
    /// The operation wants a head, and there is none.
    NoSuchObject,
    /// The object's new size is over the most that an object may have.
    ObjectTooLarge {
        /// The new size.
        size: u64,
    },
    /// The store of the accepted writes would be over the most that it may hold.
    StoreFull {
        /// What it would hold.
        bytes: u64,
    },
    /// The log would be over the most that it may hold.
    LogFull {
        /// What it would hold.
        bytes: u64,
    },
}

/// Why a write was not appended to the log.
#[derive(Clone, Copy, Debug, PartialEq, Eq, Drop)]
pub enum Declined {
    /// The request stands in the log already.
    Repeat {
        /// Its version there.
        version: Version,
    },
    /// A snap of its context can't stand where it does.
    BadSnapContext {
        /// The place of the first such snap, from 0.
        place: u64,
    },
    /// It makes no effects.
    Refused {
        /// Why.
        refusal: Refusal,
    },
}
