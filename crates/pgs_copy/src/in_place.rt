//! Effects that are applied where the copies lie: one change of a part of a copy, and then new values of attributes that are there,
//! which need no memory but for the values themselves.
ghost use Rattle.std.specs.Prelude.{◌≡◌, ℕ, ◌∷◌, IfOk, OnOk, OnErr, IsTrue, IsSome};
ghost use Rattle.std.specs.List.{list_all};
ghost use Rattle.std.specs.Option.{option_copied};
ghost use Rattle.std.specs.Ordering.{nat_cmp};
ghost use Rattle.std.specs.BTreeMap.{get};
ghost use Rattle.pgs_copy.specs.Copies.{after_effect, after_effects};
ghost use Rattle.pgs_copy.specs.InPlace.{is_edit as edits, keeps_attr, has_attr, is_change, is_in_place as fits, IsThere, AreThere};

use crate::effect::Effect;
use crate::effects::apply_edit;
use crate::obj_copy::ObjCopy;
use pgs_bytes::Bytes;
use std::alloc::{AllocError, Global};
use std::collections::BTreeMap;

/// Whether effects can be applied in place.
pub fn is_in_place(
    copies: &BTreeMap<u64, ObjCopy>,
    first: &(u64, Effect),
    rest: &[(u64, Effect)],
) -> bool
    ensures { result ≡ fits first.now rest.now (get nat_cmp copies.now) }
{
    let (snap, effect) = first;
    if !is_edit(effect) || !copies.contains_key(snap) {
        return false;
    }
    are_changes(copies, effect, rest)
}

fn are_changes(copies: &BTreeMap<u64, ObjCopy>, first: &Effect, rest: &[(u64, Effect)]) -> bool
    ensures { result ≡ list_all (λ e. is_change first.now (get nat_cmp copies.now e.0) e.1) rest.now }
{
    rest.iter().all(|(snap, change)| is_change_of(copies, first, *snap, change))
}

fn is_edit(effect: &Effect) -> bool
    ensures { result ≡ edits effect.now }
{
    !matches!(
        effect,
        Effect::Clear | Effect::Clone { .. } | Effect::Remove | Effect::Install { .. }
    )
}

fn is_change_of(copies: &BTreeMap<u64, ObjCopy>, first: &Effect, snap: u64, change: &Effect) -> bool
    ensures { result ≡ is_change first.now (get nat_cmp copies.now snap) change.now }
{
    match change {
        Effect::SetAttr { name, .. } => keeps(first, name) && has(copies.get(&snap), name),
        _ => false,
    }
}

fn keeps(effect: &Effect, attr: &Bytes) -> bool
    ensures { result ≡ keeps_attr effect.now attr.now }
{
    match effect {
        Effect::RmAttr { name } => name != attr,
        _ => true,
    }
}

fn has(copy: Option<&ObjCopy>, attr: &Bytes) -> bool
    ensures { result ≡ has_attr (option_copied copy.entry) attr.now }
{
    match copy {
        Some(copy) => copy.attrs.get(attr).is_some(),
        None => false,
    }
}

/// Applies effects in place, or none of them where memory runs out.
pub fn apply(
    alloc: Global,
    copies: &mut BTreeMap<u64, ObjCopy>,
    first: &(u64, Effect),
    rest: &[(u64, Effect)],
) -> Result<(), AllocError>
    requires { IsTrue (fits first.now rest.now (get nat_cmp copies.old)) }
    ensures ok { OnOk result ((q : ℕ) → get nat_cmp copies.new q ≡ after_effects (first.now ∷ rest.now) (get nat_cmp copies.old) q) }
    ensures err { OnErr result ((q : ℕ) → get nat_cmp copies.new q ≡ get nat_cmp copies.old q) }
{
    let changes = copied(alloc, rest)?;
    let (snap, effect) = first;
    edit_at(copies, *snap, effect)?;
    change_all(copies, changes);
    Ok(())
}

fn copied(alloc: Global, effects: &[(u64, Effect)]) -> Result<Vec<(u64, Effect)>, AllocError>
    ensures { IfOk result (λ copy. copy.items ≡ effects.now) }
{
    let mut copy = Vec::new(alloc);
    for (snap, effect) in effects {
        let effect = effect.clone()?;
        copy.push((*snap, effect))?;
    }
    Ok(copy)
}

fn edit_at(
    copies: &mut BTreeMap<u64, ObjCopy>,
    snap: u64,
    effect: &Effect,
) -> Result<(), AllocError>
    requires edits { IsTrue (edits effect.now) }
    requires there { IsSome (get nat_cmp copies.old snap) }
    ensures ok { OnOk result ((q : ℕ) → get nat_cmp copies.new q ≡ after_effect snap effect.now (get nat_cmp copies.old) q) }
    ensures err { OnErr result ((q : ℕ) → get nat_cmp copies.new q ≡ get nat_cmp copies.old q) }
{
    if let Some(copy) = copies.get_mut(&snap) {
        apply_edit(copy, effect)?;
    }
    Ok(())
}

fn change_all(copies: &mut BTreeMap<u64, ObjCopy>, changes: Vec<(u64, Effect)>)
    requires { AreThere changes.items (get nat_cmp copies.old) }
    ensures { (q : ℕ) → get nat_cmp copies.new q ≡ after_effects changes.items (get nat_cmp copies.old) q }
{
    for (snap, change) in changes {
        change_at(copies, snap, change);
    }
}

fn change_at(copies: &mut BTreeMap<u64, ObjCopy>, snap: u64, change: Effect)
    requires { IsThere (get nat_cmp copies.old snap) change }
    ensures { (q : ℕ) → get nat_cmp copies.new q ≡ after_effect snap change (get nat_cmp copies.old) q }
{
    if let Effect::SetAttr { name, value } = change {
        if let Some(copy) = copies.get_mut(&snap) {
            copy.attrs.replace(&name, value);
        }
    }
}
