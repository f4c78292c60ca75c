use pgs_copy::Effect;
use pgs_range::FamilyRange;
use pgs_request::Declined;
use sqlite_items::Items;

/// What a write comes to.
#[derive(Drop)]
pub enum Weighed {
    /// It isn't appended.
    Declined {
        /// Why.
        declined: Declined,
    },
    /// It waits already, and the open chunk has these families.
    Again {
        /// The families.
        range: FamilyRange,
    },
    /// It would wait, and no more may.
    Full,
    /// It waits from now on, and the open chunk has these families.
    Waits {
        /// The families.
        range: FamilyRange,
    },
    /// It can be appended.
    Makes {
        /// The effects of its item.
        effects: Items<(u64, Effect)>,
    },
}
