ghost use Rattle.std.specs.Prelude.{◌≡◌, Ok, IfOk};
ghost use Rattle.pgs_codec.specs.Answers.{Decodes};
ghost use Rattle.pgs_exchange.specs.Deposits as deposits;

use crate::deposit::{Deposit, Handed};
use crate::scan_result::{Found, ScanResult};
use pgs_codec::DecodeError;
use pgs_map_encoding::decode_map;
use std::alloc::{AllocError, Global};

fn found_in(alloc: Global, handed: Handed) -> Result<Found, DecodeError>
    ensures { Decodes result (deposits.found_in handed) }
{
    match handed {
        Handed::Map { text } => {
            let map = decode_map(alloc, text.as_slice())?;
            Ok(Found::Map { map })
        }
        Handed::ListFault { count } => Ok(Found::ListFault { count }),
    }
}

/// What a deposit tells. Where its bytes are no map it is refused, with the place at which they aren't.
pub fn open_deposit(alloc: Global, deposit: Deposit) -> Result<ScanResult, DecodeError>
    ensures { Decodes result (deposits.read_deposit deposit) }
{
    let found = found_in(alloc, deposit.found)?;
    Ok(ScanResult {
        osd: deposit.osd,
        serial: deposit.serial,
        chunk: deposit.chunk,
        applied: deposit.applied,
        place: deposit.place,
        found,
    })
}

/// What a deposit tells that is known to be whole.
#[tactic(auto, using(crate::proofs::Whole::never_corrupt))]
pub fn open_whole(alloc: Global, deposit: Deposit) -> Result<ScanResult, AllocError>
    requires whole { deposits.IsWhole deposit }
    ensures { IfOk result (λ told. deposits.read_deposit deposit ≡ Ok told) }
{
    match open_deposit(alloc, deposit) {
        Ok(told) => Ok(told),
        Err(DecodeError::Memory) => Err(AllocError),
        Err(DecodeError::Corrupt { .. }) => unreachable!(),
    }
}
