use pgs_request::Refusal;
use std::alloc::AllocError;

/// Why a write made no effects.
#[derive(Clone, Copy, Debug, PartialEq, Drop)]
pub enum WriteError {
    Refused { refusal: Refusal },
    /// Memory ran out. The write may be right.
    Memory,
}

impl From<AllocError> for WriteError {
    ghost use Rattle.std.specs.Prelude.{◌≡◌};
    ghost use Rattle.pgs_op.specs.declared.write_error.WriteError.TheVariants.{Memory};

    ghost from_gives = { λ _ e. e ≡ Memory };

    fn from(_: AllocError) -> WriteError {
        WriteError::Memory
    }
}
