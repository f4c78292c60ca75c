ghost use Rattle.std.specs.Prelude.{◌≡◌, ◌≤◌, ◌+◌, OnOk};
ghost use Rattle.pgs_request.specs.Ops.{payload_size};
ghost use Rattle.pgs_op.specs.Clean.{held_with};
ghost use Rattle.pgs_op.specs.Made.{IsMade, refusal_in, effects_in};
ghost use Rattle.pgs_op.specs.Rows.{by_head, by_bounds};
ghost use Rattle.pgs_op.specs.Effects as effects;
ghost use Rattle.pgs_op.specs.declared.limits.TheConstants.{LOG_MAX, STORE_MAX};

use crate::clean_store::CleanStore;
use crate::effects::effects_of;
use crate::finding::find_head;
use crate::head::Head;
use crate::limits::{LOG_MAX, OBJECT_MAX, STORE_MAX};
use crate::sizes::size_after;
use crate::write::Write;
use crate::write_error::WriteError;
use pgs_copy::Effect;
use pgs_request::{Op, Refusal, Version};
use sqlite_items::Items;
use std::alloc::Global;

/// The effects of a write on the clean store, where it gets this version, or the first of its refusals.
#[tactic(auto, using(crate::proofs::Refusals::refused_by_head, crate::proofs::Refusals::refused_by_bounds, crate::proofs::Refusals::within, crate::proofs::Refusals::room))]
pub fn make_effects(
    alloc: Global,
    clean: &CleanStore,
    log_bytes: u64,
    write: &Write,
    version: Version,
) -> Result<Items<(u64, Effect)>, WriteError>
    requires { log_bytes ≤ LOG_MAX }
    ensures made { IsMade result (refusal_in clean.now log_bytes write.now version) (effects_in clean.now write.now version) }

    // As `CleanStore::apply` wants it, and a log of so many bytes.
    ensures within { OnOk result (held_with clean.now write.now.family (effects_in clean.now write.now version) ≤ STORE_MAX) }
    ensures room { OnOk result (log_bytes + payload_size write.now.op ≤ LOG_MAX) }
{
    let head = find_head(alloc, clean.head(&write.family))?;
    if let Some(refusal) = refusal_by_head(&head, &write.op) {
        return Err(WriteError::Refused { refusal });
    }
    let effects = effects_of(
        alloc,
        &write.family,
        &head,
        &write.context,
        version,
        &write.op,
    )?;
    let held = clean.held_with(alloc, &write.family, effects.as_slice())?;
    if let Some(refusal) = refusal_by_bounds(held, log_bytes, &write.op) {
        return Err(WriteError::Refused { refusal });
    }
    Ok(effects)
}

// The first refusal that the head decides. So a payload comes into memory only where the object may have it.
fn refusal_by_head(head: &Head, op: &Op) -> Option<Refusal>
    ensures { result ≡ by_head head.now op.now }
{
    if wants_head(op) && !head.exists {
        return Some(Refusal::NoSuchObject);
    }
    let size = size_after(op, head.size);
    if size > OBJECT_MAX {
        return Some(Refusal::ObjectTooLarge { size });
    }
    None
}

// Whether an operation is refused where no head is.
fn wants_head(op: &Op) -> bool
    ensures { result ≡ effects.wants_head op.now }
{
    matches!(
        op,
        Op::Truncate { .. } | Op::RmAttr { .. } | Op::RmOmap { .. } | Op::Remove
    )
}

// The first refusal that bounds decide, by what the store would hold.
fn refusal_by_bounds(held: u64, log_bytes: u64, op: &Op) -> Option<Refusal>
    requires { log_bytes ≤ LOG_MAX }
    ensures { result ≡ by_bounds held log_bytes op.now }
{
    if held > STORE_MAX {
        return Some(Refusal::StoreFull { bytes: held });
    }
    let bytes = log_bytes + op.payload_size();
    if bytes > LOG_MAX {
        return Some(Refusal::LogFull { bytes });
    }
    None
}
