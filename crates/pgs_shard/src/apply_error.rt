use std::alloc::AllocError;

/// Why the next item was not applied. It waits.
#[derive(Clone, Copy, Debug)]
pub enum ApplyError {
    /// The device failed, and its count of faults is this.
    DeviceFault { count: u64 },
    /// Memory ran out. Nothing is kept of it.
    Memory,
}

impl From<AllocError> for ApplyError {
    ghost use Rattle.std.specs.Prelude.{◌≡◌};
    ghost use Rattle.pgs_shard.specs.declared.apply_error.ApplyError.TheVariants.{Memory};

    ghost from_gives = { λ _ e. e ≡ Memory };

    fn from(_refused: AllocError) -> ApplyError {
        ApplyError::Memory
    }
}
