ghost use Rattle.std.specs.Prelude.{◌≡◌};
ghost use Rattle.pgs_range.specs.Listed.{is_behind};

use crate::bound::Bound;
use pgs_name::ObjectId;

/// Where a listing of positions goes on.
#[derive(Drop)]
pub enum Cursor {
    /// At a bound, with the families there.
    At { bound: Bound },
    /// Behind a position.
    After { id: ObjectId },
}

impl Cursor {
    /// Whether a position is one that the listing may still give.
    pub fn is_behind(&self, id: &ObjectId) -> bool
        ensures { result ≡ is_behind self.now id.now }
    {
        match self {
            Cursor::At { bound } => bound.is_at_most(&id.family),
            Cursor::After { id: last } => last < id,
        }
    }
}
