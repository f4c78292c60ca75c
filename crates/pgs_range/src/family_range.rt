ghost use Rattle.std.specs.Prelude.{◌≡◌};
ghost use Rattle.pgs_range.specs.Ranges.{in_range, HoldsBetween};

use crate::bound::Bound;
use pgs_name::Family;
use std::alloc::AllocError;

/// The families from a bound up to another, without that one.
#[derive(Drop)]
pub struct FamilyRange {
    pub from: Bound,
    pub to: Bound,
}

impl FamilyRange {
    /// Whether a family lies in the range. It takes no memory.
    #[tactic(auto, using(crate::proofs::Tiles::held_between))]
    pub fn in_range(&self, family: &Family) -> bool
        ensures told { result ≡ in_range self.now family.now }

        // What a range holds stands together.
        ensures between { HoldsBetween self.now family.now }
    {
        self.from.is_at_most(family) && self.to.is_above(family)
    }
}

impl Clone for FamilyRange {
    ghost is_clone = { λ a b. b ≡ a };

    fn clone(&self) -> Result<FamilyRange, AllocError> {
        let from = self.from.clone()?;
        let to = self.to.clone()?;
        Ok(FamilyRange { from, to })
    }
}
