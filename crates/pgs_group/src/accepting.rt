ghost use Rattle.std.specs.Prelude.{◌≡◌, ◌≤◌, ◌+◌, ◌∷◌, None, length, OnOk, OnErr, IfOk};
ghost use Rattle.pgs_store.specs.Stores.{AreSame, affected};
ghost use Rattle.pgs_op.specs.Clean.{clean as clean_of, held_by, held_with};
ghost use Rattle.pgs_request.specs.Ops.{payload_size};
ghost use Rattle.pgs_op.specs.declared.limits.TheConstants.{LOG_MAX, STORE_MAX};
ghost use Rattle.pgs_op_log.specs.Logs.{AreAlike, version_in};

use pgs_copy::Effect;
use pgs_medium::Item;
use pgs_op::{CleanStore, Write};
use pgs_op_log::GroupLog;
use pgs_request::Version;
use sqlite_items::Items;
use std::alloc::{AllocError, Global};

// The item of a write with its effects.
fn item_of(
    version: Version,
    write: &Write,
    effects: Items<(u64, Effect)>,
) -> Result<Item, AllocError>
    ensures { IfOk result (λ item. item ≡ record { number = version.number; epoch = version.epoch; family = write.now.family; effects = effects }) }
{
    let family = write.family.clone()?;
    Ok(Item {
        number: version.number,
        epoch: version.epoch,
        family,
        effects,
    })
}

/// Appends the item of an accepted write to the log, and applies it to the clean store; or leaves both as they are.
pub fn accept(
    alloc: Global,
    log: &mut GroupLog,
    clean: &mut CleanStore,
    version: Version,
    write: &Write,
    effects: Items<(u64, Effect)>,
) -> Result<(), AllocError>
    requires next { version.number ≡ length log.old.items + 1 }
    requires new { version_in log.old.ids write.now.id ≡ None }
    requires within { held_with clean.old write.now.family effects ≤ STORE_MAX }
    requires room { log.old.bytes + payload_size write.now.op ≤ LOG_MAX }
    ensures items { OnOk result (log.new.items ≡ record { number = version.number; epoch = version.epoch; family = write.now.family; effects = effects } ∷ log.old.items) }
    ensures ids { OnOk result (log.new.ids ≡ (write.now.id, version) ∷ log.old.ids) }
    ensures bytes { OnOk result (log.new.bytes ≡ log.old.bytes + payload_size write.now.op) }
    ensures cleaned { OnOk result (AreSame (clean_of clean.new) (affected write.now.family effects (clean_of clean.old))) }
    ensures held { OnOk result (held_by clean.new ≡ held_with clean.old write.now.family effects) }
    ensures log { OnErr result (AreAlike log.old log.new) }
    ensures same { OnErr result (AreSame (clean_of clean.new) (clean_of clean.old)) }
    ensures same_held { OnErr result (held_by clean.new ≡ held_by clean.old) }
{
    log.reserve()?;
    let item = item_of(version, write, effects)?;
    clean.apply(alloc, &write.family, item.effects.as_slice())?;
    match log.append(item, Some(write.id), write.op.payload_size()) {
        Ok(()) => Ok(()),
        Err(_) => unreachable!(),
    }
}
