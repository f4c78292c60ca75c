ghost use Rattle.std.specs.Prelude.{◌≡◌, ℕ, IfOk, OnOk, OnErr};
ghost use Rattle.std.specs.Ordering.{nat_cmp};
ghost use Rattle.std.specs.BTreeMap.{get};
ghost use Rattle.pgs_copy.specs.Copies.{after_effect, after_effects, cloned, edited};
ghost use Rattle.pgs_copy.specs.declared.effect.Effect.TheVariants as variants;

use crate::effect::Effect;
use crate::in_place;
use crate::obj_copy::ObjCopy;
use pgs_bytes::Bytes;
use pgs_name::HEAD;
use std::alloc::{AllocError, Global};
use std::collections::BTreeMap;

/// Applies the effects in turn, each to the copy at its snap, or none of them where memory runs out. A change of one part of a copy
/// with its object info costs what it changes; other effects cost what the family holds.
pub fn apply_effects(
    alloc: Global,
    copies: &mut BTreeMap<u64, ObjCopy>,
    effects: &[(u64, Effect)],
) -> Result<(), AllocError>
    ensures ok { OnOk result
        ((q : ℕ) → get nat_cmp copies.new q ≡ after_effects effects.now (get nat_cmp copies.old) q) }
    ensures err { OnErr result ((q : ℕ) → get nat_cmp copies.new q ≡ get nat_cmp copies.old q) }
{
    if let Some((first, rest)) = effects.split_first() {
        if in_place::is_in_place(copies, first, rest) {
            return in_place::apply(alloc, copies, first, rest);
        }
    }
    let mut next = copies.clone()?;
    apply_in_turn(alloc, &mut next, effects)?;
    *copies = next;
    Ok(())
}

// After an error some effects are applied, and the copy at one snap may be gone.
fn apply_in_turn(
    alloc: Global,
    copies: &mut BTreeMap<u64, ObjCopy>,
    effects: &[(u64, Effect)],
) -> Result<(), AllocError>
    ensures { OnOk result
        ((q : ℕ) → get nat_cmp copies.new q ≡ after_effects effects.now (get nat_cmp copies.old) q) }
{
    for (snap, effect) in effects {
        apply_effect(alloc, copies, *snap, effect)?;
    }
    Ok(())
}

fn apply_effect(
    alloc: Global,
    copies: &mut BTreeMap<u64, ObjCopy>,
    snap: u64,
    effect: &Effect,
) -> Result<(), AllocError>
    ensures { OnOk result
        ((q : ℕ) → get nat_cmp copies.new q ≡ after_effect snap effect.now (get nat_cmp copies.old) q) }
{
    match effect {
        Effect::Clear => {
            copies.insert(snap, ObjCopy::new(alloc))?;
        }
        Effect::Clone { info } => clone_head(alloc, copies, snap, info)?,
        Effect::Remove => {
            copies.remove(&snap);
        }
        Effect::Install { copy } => {
            let copy = copy.clone()?;
            copies.insert(snap, copy)?;
        }
        edit => {
            let old = copies.remove(&snap);
            let mut copy = old.unwrap_or_else(|| ObjCopy::new(alloc));
            apply_edit(&mut copy, edit)?;
            copies.insert(snap, copy)?;
        }
    }
    Ok(())
}

// Makes the copy at a snap a clone of the head beside it, or takes it away where there is none.
fn clone_head(
    alloc: Global,
    copies: &mut BTreeMap<u64, ObjCopy>,
    snap: u64,
    info: &Bytes,
) -> Result<(), AllocError>
    ensures { OnOk result
        ((q : ℕ) → get nat_cmp copies.new q ≡ after_effect snap (variants.Clone info.now) (get nat_cmp copies.old) q) }
{
    match copies.get(&HEAD) {
        Some(head) => {
            let clone = clone_of(alloc, head, info)?;
            copies.insert(snap, clone)?;
        }
        None => {
            copies.remove(&snap);
        }
    }
    Ok(())
}

fn clone_of(alloc: Global, head: &ObjCopy, info: &Bytes) -> Result<ObjCopy, AllocError>
    ensures { IfOk result (λ clone. clone ≡ cloned info.now head.now) }
{
    let mut clone = head.clone()?;
    let snapset_name = Bytes::from_slice(alloc, b"snapset")?;
    clone.attrs.remove(&snapset_name);
    let info_name = Bytes::from_slice(alloc, b"_")?;
    let info = info.clone()?;
    clone.attrs.set(info_name, info)?;
    Ok(clone)
}

/// Does to one part of a copy what an effect on it says, whole or not at all.
pub fn apply_edit(copy: &mut ObjCopy, effect: &Effect) -> Result<(), AllocError>
    ensures ok { OnOk result (copy.new ≡ edited effect.now copy.old) }
    ensures err { OnErr result (copy.new ≡ copy.old) }
{
    match effect {
        Effect::SetData { bytes } => copy.bytes = bytes.clone()?,
        Effect::Write { at, bytes } => copy.bytes.write(*at, bytes.as_slice())?,
        Effect::Truncate { size } => copy.bytes.resize(*size as usize)?,
        Effect::SetAttr { name, value } => {
            let name = name.clone()?;
            let value = value.clone()?;
            copy.attrs.set(name, value)?;
        }
        Effect::RmAttr { name } => copy.attrs.remove(name),
        Effect::SetOmap { key, value } => {
            let key = key.clone()?;
            let value = value.clone()?;
            copy.omap.set(key, value)?;
        }
        Effect::RmOmap { key } => copy.omap.remove(key),
        Effect::SetHeader { bytes } => copy.header = bytes.clone()?,
        Effect::Clear | Effect::Clone { .. } | Effect::Remove | Effect::Install { .. } => {}
    }
    Ok(())
}
