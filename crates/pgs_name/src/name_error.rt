use crate::part::Part;
use std::alloc::AllocError;

/// Why no object has this name.
#[derive(Debug, Clone, Copy, PartialEq)]
pub enum NameError {
    /// A space has over 64 bytes, or a key or a name over 255.
    NameTooLong { part: Part },
    /// A byte that no name has stands at this place. A space or a key that is `-` alone is refused at 0, since a script
    /// writes an empty one so; an empty name is too.
    BadName { part: Part, at: usize },
    /// The snap is 0 or above `HEAD`.
    BadSnap,
    /// Memory ran out. The name may be right.
    Memory,
}

impl From<AllocError> for NameError {
    ghost use Rattle.std.specs.Prelude.{◌≡◌};
    ghost use Rattle.pgs_name.specs.declared.name_error.NameError.TheVariants.{Memory};

    ghost from_gives = { λ _ e. e ≡ Memory };

    fn from(_: AllocError) -> NameError {
        NameError::Memory
    }
}
