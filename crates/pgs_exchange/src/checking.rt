ghost use Rattle.std.specs.Prelude.{IfOk};
ghost use Rattle.std.specs.Option.{option_copied};
ghost use Rattle.pgs_map_encoding.specs.Maps.{read_map};
ghost use Rattle.pgs_exchange.specs.Checked as due;
ghost use Rattle.pgs_exchange.specs.Checked.{Checks, IsMap, IsOfAsk};

use crate::deposit::{Deposit, Handed};
use crate::deposit_error::DepositError;
use crate::places::other_at;
use pgs_chunk::Ask;
use pgs_map::ScrubMap;
use pgs_map_encoding::decode_map;
use std::alloc::Global;

// The map of these bytes, if it is the one that was asked for.
fn of_ask(alloc: Global, ask: &Ask, text: &[u8]) -> Result<ScrubMap, DepositError>
    ensures { Checks result (due.of_ask ask.now (read_map text.now)) }
{
    let map = decode_map(alloc, text)?;
    match other_at(ask, &map) {
        None => Ok(map),
        Some(at) => Err(DepositError::BadMap { at }),
    }
}

fn checked_against(alloc: Global, ask: &Ask, deposit: &Deposit) -> Result<ScrubMap, DepositError>
    requires { IsMap deposit.now.found }
    ensures { Checks result (due.checked_against ask.now deposit.now) }
{
    if deposit.chunk != ask.chunk {
        return Err(DepositError::Stale {
            chunk_now: Some(ask.chunk),
        });
    }
    if deposit.applied < ask.needed {
        return Err(DepositError::Early {
            applied: deposit.applied,
            needed: ask.needed,
        });
    }
    match &deposit.found {
        Handed::Map { text } => of_ask(alloc, ask, text.as_slice()),
        Handed::ListFault { .. } => unreachable!(),
    }
}

/// The map of a deposit, if it is what was asked for: of the open chunk and of its range, by a member that had applied the item that
/// is needed. Its refusals are tried in that order, so that one of another chunk is never decoded.
#[tactic(auto, using(crate::proofs::Checked::asked_of))]
pub fn check_deposit(
    alloc: Global,
    asked: Option<&Ask>,
    deposit: &Deposit,
) -> Result<ScrubMap, DepositError>
    requires map { IsMap deposit.now.found }
    ensures due { Checks result (due.checked (option_copied asked.entry) deposit.now) }

    // What passes is of the chunk and of the range that were asked for.
    ensures asked { IfOk result (λ map. IsOfAsk (option_copied asked.entry) map) }
{
    checked(alloc, asked, deposit)
}

fn checked(alloc: Global, asked: Option<&Ask>, deposit: &Deposit) -> Result<ScrubMap, DepositError>
    requires { IsMap deposit.now.found }
    ensures { Checks result (due.checked (option_copied asked.entry) deposit.now) }
{
    match asked {
        Some(ask) => checked_against(alloc, ask, deposit),
        None => Err(DepositError::Stale { chunk_now: None }),
    }
}
