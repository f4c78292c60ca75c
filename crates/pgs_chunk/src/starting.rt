ghost use Rattle.std.specs.Prelude.{◌≡◌};
ghost use Rattle.pgs_chunk.specs.Positions.{Ascends};
ghost use Rattle.pgs_chunk.specs.Selection as selection;

use pgs_name::ObjectId;
use pgs_range::Bound;

/// The positions without those below the start.
#[tactic(auto, using(crate::proofs::Starts::starts))]
pub fn from_start<'a>(listed: &'a [ObjectId], start: &Bound) -> &'a [ObjectId]
    requires ascends { Ascends listed.now }
    ensures { result.now ≡ selection.from_start start.now listed.now }
{
    let mut rest = listed;
    while let Some((first, more)) = rest.split_first() {
        if start.is_at_most(&first.family) {
            return rest;
        }
        rest = more;
    }
    rest
}
