//! Whether damage to a copy is done.
ghost use Rattle.std.specs.Prelude.{◌≡◌, IfOk, reverse, nat_lt, if◌then◌else◌};
ghost use Rattle.std.specs.Option.{option_copied};
ghost use Rattle.pgs_copy.specs.Copies.{damaged as damaged_copy};
ghost use Rattle.pgs_store.specs.Stores.{copy_size};
ghost use Rattle.pgs_shard_history.specs.declared.damage_answer.DamageAnswer.TheVariants.{Damaged, ShardFull};
ghost use Rattle.pgs_shard_history.specs.declared.limits.TheConstants.{SHARD_MAX as MAX};
ghost use Rattle.pgs_shard_history.specs.Held as defined;
ghost use Rattle.pgs_shard_history.specs.Stores.{stored_by};

use crate::holding::{held, size_of, sum};
use pgs_copy::{Damage, ObjCopy, damaged, makes_copy};
use pgs_medium::Medium;
use pgs_name::Family;
use pgs_shard_history::{DamageAnswer, Event, SHARD_MAX};
use std::alloc::{AllocError, Global};

/// What damage to a copy of a device is answered that isn't being read. The events say what the device holds. All copies are measured only where one grows.
#[tactic(auto, using(crate::proofs::Sizes::never_more, crate::proofs::Sizes::not_more))]
pub fn room_answer<M: Medium>(
    alloc: Global,
    medium: &M,
    events: &[Event],
    family: &Family,
    snap: u64,
    damage: &Damage,
) -> Result<DamageAnswer, AllocError>
    requires { (M.device medium.now).stored ≡ stored_by (reverse events.now) }
    ensures { IfOk result (λ answer. answer ≡ defined.room_answer (reverse events.now) family.now snap damage.now) }
{
    if !makes_copy(damage) {
        return Ok(DamageAnswer::Damaged);
    }
    let copy = medium.copy(family, snap);
    let before = size_of(copy)?;
    let after = size_damaged(alloc, copy, damage)?;
    if after <= before {
        return Ok(DamageAnswer::Damaged);
    }
    let held = held(medium, events)?;
    let bytes = sum(held.saturating_sub(before), after)?;
    Ok(answer_by(bytes))
}

// The bytes of a copy after damage to it.
fn size_damaged(alloc: Global, copy: Option<&ObjCopy>, damage: &Damage) -> Result<u64, AllocError>
    ensures { IfOk result (λ size. size ≡ copy_size (damaged_copy damage.now (option_copied copy.entry))) }
{
    let left = damaged(alloc, copy, damage)?;
    size_of(left.as_ref())
}

// The answer to damage that makes a copy larger, by the bytes that all copies would hold.
fn answer_by(bytes: u64) -> DamageAnswer
    ensures { result ≡ (if nat_lt MAX bytes then ShardFull bytes else Damaged) }
{
    if SHARD_MAX < bytes {
        return DamageAnswer::ShardFull { bytes };
    }
    DamageAnswer::Damaged
}
