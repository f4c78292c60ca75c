//! The effects of a write, in their order.
ghost use Rattle.std.specs.Prelude.{◌≡◌, ◌++◌, ◌∷◌, [], IfOk, OnOk};
ghost use Rattle.std.specs.Option.{option_copied};
ghost use Rattle.pgs_name.specs.declared.object_id.TheConstants.{HEAD};
ghost use Rattle.pgs_copy.specs.declared.effect.Effect.TheVariants as effect_of;
ghost use Rattle.pgs_request.specs.Payloads.{bytes_of};
ghost use Rattle.pgs_op.specs.Effects as made;

use crate::head::Head;
use crate::infos::{clone_info, info_after, is_remove};
use pgs_bytes::Bytes;
use pgs_copy::Effect;
use pgs_info::ObjectInfo;
use pgs_name::{Family, HEAD};
use pgs_request::{Op, Payload, SnapContext, Version};
use pgs_snapset::{CloneFacts, SnapSet};
use sqlite_items::Items;
use std::alloc::{AllocError, Global};

type Effects = Items<(u64, Effect)>;

/// The effects of a write on an object of which the clean store tells this of the head.
#[tactic(auto, unfolding(crate::specs::Effects::effects_of))]
pub fn effects_of(
    alloc: Global,
    family: &Family,
    head: &Head,
    context: &SnapContext,
    version: Version,
    op: &Op,
) -> Result<Effects, AllocError>
    ensures { IfOk result (λ effects. effects ≡ made.effects_of family.now head.now context.now version op.now) }
{
    let clone = clone_of(alloc, head, context)?;
    let mut effects = cloning(alloc, family, head, version, clone.as_ref())?;
    let snapset = snapset_behind(head, context, clone)?;
    push_on_head(alloc, &mut effects, family, head, &snapset, version, op)?;
    Ok(effects)
}

fn clone_of(
    alloc: Global,
    head: &Head,
    context: &SnapContext,
) -> Result<Option<CloneFacts>, AllocError>
    ensures { IfOk result (λ clone. clone ≡ made.clone_of head.now context.now) }
{
    if !head.exists {
        return Ok(None);
    }
    head.snapset
        .clone_for(alloc, context.seq, context.snaps.as_slice(), head.size)
}

// The effect that makes the clone.
fn cloning(
    alloc: Global,
    family: &Family,
    head: &Head,
    version: Version,
    clone: Option<&CloneFacts>,
) -> Result<Effects, AllocError>
    ensures { IfOk result (λ effects. effects ≡ made.cloning family.now head.now version (option_copied clone.entry)) }
{
    let mut effects = Items::new(alloc);
    if let Some(clone) = clone {
        let info = clone_info(family, head, version, clone.snap)?;
        let info = info.encode(alloc)?;
        effects.push((clone.snap, Effect::Clone { info }))?;
    }
    Ok(effects)
}

// The snapset behind a write, which lists the clone that it makes last.
fn snapset_behind(
    head: &Head,
    context: &SnapContext,
    clone: Option<CloneFacts>,
) -> Result<SnapSet, AllocError>
    requires { clone ≡ made.clone_of head.now context.now }
    ensures { IfOk result (λ set. set ≡ made.snapset_behind head.now context.now) }
{
    let mut clones = head.snapset.clones.clone()?;
    if let Some(clone) = clone {
        clones.push(clone)?;
    }
    Ok(SnapSet {
        seq: head.snapset.seq.max(context.seq),
        clones,
    })
}

fn push_on_head(
    alloc: Global,
    effects: &mut Effects,
    family: &Family,
    head: &Head,
    snapset: &SnapSet,
    version: Version,
    op: &Op,
) -> Result<(), AllocError>
    ensures { OnOk result (effects.new ≡ effects.old ++ made.on_head family.now head.now snapset.now version op.now) }
{
    if is_remove(op) && snapset.clones.as_slice().is_empty() {
        return push(effects, Effect::Remove);
    }
    push_clearing(effects, head, op)?;
    push_doing(alloc, effects, op)?;
    let info = info_after(alloc, family, head, version, op)?;
    push_recording(alloc, effects, &info, snapset)
}

// An effect on the head.
fn push(effects: &mut Effects, effect: Effect) -> Result<(), AllocError>
    ensures { OnOk result (effects.new ≡ effects.old ++ (HEAD, effect) ∷ []) }
{
    effects.push((HEAD, effect))?;
    Ok(())
}

fn push_clearing(effects: &mut Effects, head: &Head, op: &Op) -> Result<(), AllocError>
    ensures { OnOk result (effects.new ≡ effects.old ++ made.clearing head.now op.now) }
{
    if is_remove(op) || !head.exists {
        return push(effects, Effect::Clear);
    }
    Ok(())
}

// What the operation itself does.
fn push_doing(alloc: Global, effects: &mut Effects, op: &Op) -> Result<(), AllocError>
    ensures { OnOk result (effects.new ≡ effects.old ++ made.doing op.now) }
{
    match op {
        Op::Full { payload } => {
            let bytes = payload.to_bytes(alloc)?;
            push(effects, Effect::SetData { bytes })
        }
        Op::Write { at, payload } => push_writing(alloc, effects, *at, payload),
        Op::Truncate { size } => push(effects, Effect::Truncate { size: *size }),
        Op::SetAttr { name, payload } => {
            let name = name.clone()?;
            let value = payload.to_bytes(alloc)?;
            push(effects, Effect::SetAttr { name, value })
        }
        Op::RmAttr { name } => {
            let name = name.clone()?;
            push(effects, Effect::RmAttr { name })
        }
        Op::SetOmap { key, payload } => {
            let key = key.clone()?;
            let value = payload.to_bytes(alloc)?;
            push(effects, Effect::SetOmap { key, value })
        }
        Op::RmOmap { key } => {
            let key = key.clone()?;
            push(effects, Effect::RmOmap { key })
        }
        Op::SetHeader { payload } => {
            let bytes = payload.to_bytes(alloc)?;
            push(effects, Effect::SetHeader { bytes })
        }
        Op::Remove => Ok(()),
    }
}

fn push_writing(
    alloc: Global,
    effects: &mut Effects,
    at: u32,
    payload: &Payload,
) -> Result<(), AllocError>
    ensures { OnOk result (effects.new ≡ effects.old ++ made.writing at (bytes_of payload.now)) }
{
    let bytes = payload.to_bytes(alloc)?;
    if bytes.is_empty() {
        return Ok(());
    }
    push(effects, Effect::Write { at, bytes })
}

// What is recorded of the head at the end.
fn push_recording(
    alloc: Global,
    effects: &mut Effects,
    info: &ObjectInfo,
    snapset: &SnapSet,
) -> Result<(), AllocError>
    ensures { OnOk result (effects.new ≡ effects.old ++ made.recording info.now snapset.now) }
{
    let info = info.encode(alloc)?;
    let snapset = snapset.encode(alloc)?;
    push_attr(alloc, effects, b"_", info)?;
    push_attr(alloc, effects, b"snapset", snapset)
}

fn push_attr(
    alloc: Global,
    effects: &mut Effects,
    name: &[u8],
    value: Bytes,
) -> Result<(), AllocError>
    ensures { OnOk result (effects.new ≡ effects.old ++ (HEAD, effect_of.SetAttr name.now value) ∷ []) }
{
    let name = Bytes::from_slice(alloc, name)?;
    push(effects, Effect::SetAttr { name, value })
}
