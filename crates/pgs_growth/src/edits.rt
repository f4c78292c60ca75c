ghost use Rattle.std.specs.Prelude.{◌≡◌, IfSome};
ghost use Rattle.pgs_growth.specs.Growths.{growth_of, IsGrown};

use crate::amounts::{added, taken};
use crate::growths::Growth;
use crate::parts::are_apart;
use pgs_copy::{Effect, ObjCopy};

/// What edits of one copy take and add, where each is of another part of it: of the data, of the header, of one attribute or of one
/// key. Nothing where that isn't so, where an effect is no edit of a part or is on another snap, or where a sum doesn't fit in 64
/// bits. It looks up what the edits change, and walks no part of the copy.
pub fn growth(copy: &ObjCopy, effects: &[(u64, Effect)]) -> Option<Growth>
    ensures value { result ≡ growth_of effects.now copy.now }
    ensures grown { IfSome result (λ g. IsGrown effects.now copy.now g) }
{
    if !are_apart(effects) {
        return None;
    }
    let taken = taken(copy, effects)?;
    let added = added(copy, effects)?;
    Some(Growth { taken, added })
}
