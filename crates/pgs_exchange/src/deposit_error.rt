ghost use Rattle.std.specs.Prelude.{◌≡◌};
ghost use Rattle.pgs_exchange.specs.declared.deposit_error.DepositError.TheVariants.{Memory};

use pgs_codec::DecodeError;
use std::alloc::AllocError;

/// Why a deposit isn't the map that was asked for.
#[derive(Drop)]
pub enum DepositError {
    /// It is of another chunk than the open one.
    Stale {
        /// The number of the open chunk, if there is one.
        chunk_now: Option<u64>,
    },
    /// The member hadn't applied the item that was needed.
    Early {
        /// The number of the item that it had applied last.
        applied: u64,
        /// The number of the item that was needed.
        needed: u64,
    },
    /// Its bytes are no map, or are one of another chunk or range: the first field that isn't right starts at this place.
    BadMap {
        at: usize,
    },
    /// Memory ran out. The deposit may be right.
    Memory,
}

impl From<AllocError> for DepositError {
    ghost from_gives = { λ _ e. e ≡ Memory };

    fn from(_: AllocError) -> DepositError {
        DepositError::Memory
    }
}

impl From<DecodeError> for DepositError {
    ghost use Rattle.std.specs.Prelude.{◌≡◌};
    ghost use Rattle.pgs_exchange.specs.Checked.{bad_map};

    ghost from_gives = { λ f e. e ≡ bad_map f };

    fn from(refusal: DecodeError) -> DepositError {
        match refusal {
            DecodeError::Corrupt { at } => DepositError::BadMap { at },
            DecodeError::Memory => DepositError::Memory,
        }
    }
}
