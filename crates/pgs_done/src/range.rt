ghost use Rattle.std.specs.Prelude.{◌≡◌};

use crate::bound::Bound;
use std::alloc::AllocError;

/// The families from a bound up to another, without that one: the words `from B to B`.
#[derive(Drop)]
pub struct Range {
    /// Where it begins.
    pub from: Bound,
    /// Where it ends.
    pub to: Bound,
}

impl Clone for Range {
    ghost is_clone = { λ a b. b ≡ a };

    fn clone(&self) -> Result<Range, AllocError> {
        let from = self.from.clone()?;
        let to = self.to.clone()?;
        Ok(Range { from, to })
    }
}
