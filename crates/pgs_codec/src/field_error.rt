ghost use Rattle.std.specs.Prelude.{◌≡◌};
ghost use Rattle.pgs_codec.specs.declared.short.Short.{Short};
ghost use Rattle.pgs_codec.specs.declared.field_error.FieldError.TheVariants as errors;

use crate::short::Short;
use std::alloc::AllocError;

/// Why a field wasn't read. A place is how many bytes of the text stand before the field.
#[derive(Clone, Copy, Debug, PartialEq, Eq, Drop)]
pub enum FieldError {
    /// The field that starts here isn't whole.
    Short { at: usize },
    /// The field that starts here has a value that isn't allowed.
    Bad { at: usize },
    /// Memory ran out. The field may be right.
    Memory,
}

impl From<Short> for FieldError {
    ghost from_gives = { λ s e. e ≡ errors.Short s.at };

    fn from(short: Short) -> FieldError {
        FieldError::Short { at: short.at }
    }
}

impl From<AllocError> for FieldError {
    ghost from_gives = { λ _ e. e ≡ errors.Memory };

    fn from(_: AllocError) -> FieldError {
        FieldError::Memory
    }
}
