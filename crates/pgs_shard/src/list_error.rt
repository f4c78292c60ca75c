use std::alloc::AllocError;

/// Why no positions were listed.
#[derive(Clone, Copy, Debug)]
pub enum ListError {
    /// The device failed, and its count of faults is this.
    ListFault { count: u64 },
    /// Memory ran out. Nothing is kept of it.
    Memory,
}

impl From<AllocError> for ListError {
    ghost use Rattle.std.specs.Prelude.{◌≡◌};
    ghost use Rattle.pgs_shard.specs.declared.list_error.ListError.TheVariants.{Memory};

    ghost from_gives = { λ _ e. e ≡ Memory };

    fn from(_refused: AllocError) -> ListError {
        ListError::Memory
    }
}
