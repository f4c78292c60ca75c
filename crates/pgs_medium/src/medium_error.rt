use std::alloc::AllocError;

/// Why a call of a device gave nothing.
#[derive(Clone, Copy, Debug)]
pub enum MediumError {
    /// The device failed. Its count of faults rose.
    Failed,
    /// Memory ran out. The device was not asked.
    Memory,
}

impl From<AllocError> for MediumError {
    ghost use Rattle.std.specs.Prelude.{◌≡◌};
    ghost use Rattle.pgs_medium.specs.declared.medium_error.MediumError.TheVariants.{Memory};

    ghost from_gives = { λ _ e. e ≡ Memory };

    fn from(_refused: AllocError) -> MediumError {
        MediumError::Memory
    }
}
