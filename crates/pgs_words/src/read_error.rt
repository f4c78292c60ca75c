ghost use Rattle.std.specs.Prelude.{◌≡◌};
ghost use Rattle.pgs_words.specs.declared.read_error.ReadError.TheVariants.{Memory};

use std::alloc::{AllocError, AllocFailed};

/// Why nothing was read.
#[derive(Clone, Copy, Debug)]
pub enum ReadError {
    /// The words aren't those of a value.
    Outside,
    /// Memory ran out.
    Memory,
}

impl From<AllocError> for ReadError {
    ghost from_gives = { λ _ e. e ≡ Memory };

    fn from(_refused: AllocError) -> ReadError {
        ReadError::Memory
    }
}

impl<T: Drop> From<AllocFailed<T>> for ReadError {
    ghost from_gives = { λ _ e. e ≡ Memory };

    fn from(_refused: AllocFailed<T>) -> ReadError {
        ReadError::Memory
    }
}
