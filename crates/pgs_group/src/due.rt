use pgs_copy::Effect;
use pgs_request::Refusal;
use sqlite_items::Items;

/// What the write comes to that is to be taken up next.
#[derive(Drop)]
pub enum Due {
    /// None is.
    Nothing,
    /// It makes no effects.
    Refused {
        /// Why.
        refusal: Refusal,
    },
    /// It is appended.
    Makes {
        /// The effects of its item.
        effects: Items<(u64, Effect)>,
    },
}
