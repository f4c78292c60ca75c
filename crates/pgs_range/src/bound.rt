ghost use Rattle.std.specs.Prelude.{◌≡◌};
ghost use Rattle.pgs_range.specs.Ranges.{is_at_most, is_above};

use pgs_name::Family;
use std::alloc::AllocError;

/// An end of a range of families.
#[derive(Drop)]
pub enum Bound {
    /// Below every family.
    Min,
    At { family: Family },
    /// Above every family.
    Max,
}

impl Bound {
    /// Whether a family is at this bound or above.
    pub fn is_at_most(&self, family: &Family) -> bool
        ensures { result ≡ is_at_most self.now family.now }
    {
        match self {
            Bound::Min => true,
            Bound::At { family: at } => at <= family,
            Bound::Max => false,
        }
    }

    /// Whether a family is below this bound.
    pub fn is_above(&self, family: &Family) -> bool
        ensures { result ≡ is_above self.now family.now }
    {
        match self {
            Bound::Min => false,
            Bound::At { family: at } => family < at,
            Bound::Max => true,
        }
    }
}

impl Clone for Bound {
    ghost is_clone = { λ a b. b ≡ a };

    fn clone(&self) -> Result<Bound, AllocError> {
        match self {
            Bound::Min => Ok(Bound::Min),
            Bound::At { family } => {
                let family = family.clone()?;
                Ok(Bound::At { family })
            }
            Bound::Max => Ok(Bound::Max),
        }
    }
}
