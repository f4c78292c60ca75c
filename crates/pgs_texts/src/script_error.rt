ghost use Rattle.std.specs.Prelude.{◌≡◌};
ghost use Rattle.pgs_texts.specs.declared.script_error.ScriptError.TheVariants.{Memory};

use std::alloc::{AllocError, AllocFailed};

/// Why a text of lines is refused. Lines count from 1, also those that are passed over.
#[derive(Clone, Copy, Debug)]
pub enum ScriptError {
    /// The first refused line is outside the grammar, or may not stand there.
    BadLine {
        /// Its number.
        line: u32,
    },
    /// The first refused line may stand there, and passes a limit.
    Limit {
        /// Its number.
        line: u32,
    },
    /// Memory ran out.
    Memory,
}

impl From<AllocError> for ScriptError {
    ghost from_gives = { λ _ e. e ≡ Memory };

    fn from(_refused: AllocError) -> ScriptError {
        ScriptError::Memory
    }
}

impl<T: Drop> From<AllocFailed<T>> for ScriptError {
    ghost from_gives = { λ _ e. e ≡ Memory };

    fn from(_refused: AllocFailed<T>) -> ScriptError {
        ScriptError::Memory
    }
}
