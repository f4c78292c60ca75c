ghost use Rattle.std.specs.Prelude.{◌≡◌};

use pgs_lines::Object;
use std::alloc::AllocError;

/// An end of a range: the words `min`, `at SPACE KEY NAME` or `max`.
#[derive(Drop)]
pub enum Bound {
    /// Below every object.
    Min,
    /// At the family of an object.
    At {
        /// The object.
        object: Object,
    },
    /// Above every object.
    Max,
}

impl Clone for Bound {
    ghost is_clone = { λ a b. b ≡ a };

    fn clone(&self) -> Result<Bound, AllocError> {
        match self {
            Bound::Min => Ok(Bound::Min),
            Bound::At { object } => {
                let object = object.clone()?;
                Ok(Bound::At { object })
            }
            Bound::Max => Ok(Bound::Max),
        }
    }
}
