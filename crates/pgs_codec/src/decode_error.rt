ghost use Rattle.std.specs.Prelude.{◌≡◌};
ghost use Rattle.pgs_codec.specs.declared.decode_error.DecodeError.TheVariants.{Memory};

use crate::field_error::FieldError;
use std::alloc::AllocError;

/// Why a text wasn't decoded.
#[derive(Clone, Copy, Debug, PartialEq, Eq, Drop)]
pub enum DecodeError {
    /// The text is no spelling: the field that starts at this place isn't whole or has a value that isn't allowed, or the
    /// spelling ends here and bytes follow it.
    Corrupt { at: usize },
    /// Memory ran out. The text may be right.
    Memory,
}

impl From<AllocError> for DecodeError {
    ghost from_gives = { λ _ e. e ≡ Memory };

    fn from(_: AllocError) -> DecodeError {
        DecodeError::Memory
    }
}

impl From<FieldError> for DecodeError {
    ghost use Rattle.std.specs.Prelude.{◌≡◌};
    ghost use Rattle.pgs_codec.specs.Answers.{refused};

    ghost from_gives = { λ f e. e ≡ refused f };

    fn from(refusal: FieldError) -> DecodeError {
        match refusal {
            FieldError::Short { at } | FieldError::Bad { at } => DecodeError::Corrupt { at },
            FieldError::Memory => DecodeError::Memory,
        }
    }
}
