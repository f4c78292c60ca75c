use std::alloc::AllocError;

/// Why a write was not parked.
#[derive(Clone, Copy, Debug, PartialEq, Drop)]
pub enum ParkError {
    /// No more may be parked.
    QueueFull {
        /// How many are.
        count: u64,
    },
    /// Memory ran out. There may be room among the parked ones.
    Memory,
}

impl From<AllocError> for ParkError {
    ghost use Rattle.std.specs.Prelude.{◌≡◌};
    ghost use Rattle.pgs_gate.specs.declared.park_error.ParkError.TheVariants.{Memory};

    ghost from_gives = { λ _ e. e ≡ Memory };

    fn from(_: AllocError) -> ParkError {
        ParkError::Memory
    }
}
