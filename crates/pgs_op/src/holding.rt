//! What a store would hold after effects.
ghost use Rattle.std.specs.Prelude.{◌≡◌, ◌==◌, ℕ, Some, IfOk, IfSome, OnOk, if◌then◌else◌};
ghost use Rattle.std.specs.List.{list_any, AllByRecursion};
ghost use Rattle.std.specs.Option.{option_copied};
ghost use Rattle.std.specs.Ordering.{nat_cmp};
ghost use Rattle.std.specs.BTreeMap.{get};
ghost use Rattle.pgs_name.specs.declared.object_id.TheConstants.{HEAD};
ghost use Rattle.pgs_copy.specs.declared.obj_copy.ObjCopy.{ObjCopy};
ghost use Rattle.pgs_store.specs.Kept.{in_map};
ghost use Rattle.pgs_store.specs.Stores.{copy_size};
ghost use Rattle.pgs_op.specs.Held as specs_held;

use pgs_copy::{Effect, ObjCopy, apply_effects};
use pgs_growth::growth;
use pgs_name::HEAD;
use std::alloc::{AllocError, Global};
use std::collections::BTreeMap;

type Copies = BTreeMap<u64, ObjCopy>;

/// What a store that holds so many bytes would hold after effects on the copies of a family. A number over 64 bits is refused as
/// want of memory is. Edits of different parts of one copy cost what they change; other effects cost what the copies that they are on
/// and the head hold.
pub fn held_after(
    alloc: Global,
    held: u64,
    copies: Option<&Copies>,
    effects: &[(u64, Effect)],
) -> Result<u64, AllocError>
    ensures { IfOk result (λ after. after ≡ specs_held.held_after held effects.now (in_map (option_copied copies.entry))) }
{
    match grown(held, copies, effects) {
        Some(after) => Ok(after),
        None => measured(alloc, held, copies, effects),
    }
}

// The same by what the effects take and add, where they are edits of different parts of one copy that is there.
#[tactic(auto, using(crate::proofs::Growing::held_grown))]
fn grown(held: u64, copies: Option<&Copies>, effects: &[(u64, Effect)]) -> Option<u64>
    ensures { IfSome result (λ after. after ≡ specs_held.held_after held effects.now (in_map (option_copied copies.entry))) }
{
    let (first, _) = effects.split_first()?;
    let copy = copy_at(copies, first.0)?;
    let growth = growth(copy, effects)?;
    let sum = held.checked_add(growth.added)?;
    Some(sum.saturating_sub(growth.taken))
}

// The same by the copies that the effects leave.
fn measured(
    alloc: Global,
    held: u64,
    copies: Option<&Copies>,
    effects: &[(u64, Effect)],
) -> Result<u64, AllocError>
    ensures { IfOk result (λ after. after ≡ specs_held.held_after held effects.now (in_map (option_copied copies.entry))) }
{
    let mut next = cloned(alloc, copies, effects)?;
    let before = touched_bytes(&next, effects).ok_or(AllocError)?;
    apply_effects(alloc, &mut next, effects)?;
    let after = touched_bytes(&next, effects).ok_or(AllocError)?;
    let sum = held.checked_add(after).ok_or(AllocError)?;
    Ok(sum.saturating_sub(before))
}

// Clones of the copies that effects read: of those that they are on, and of the head.
fn cloned(
    alloc: Global,
    copies: Option<&Copies>,
    effects: &[(u64, Effect)],
) -> Result<Copies, AllocError>
    ensures head { IfOk result (λ clones. get nat_cmp clones HEAD ≡ in_map (option_copied copies.entry) HEAD) }
    ensures effects { IfOk result (λ clones. AllByRecursion (λ e. get nat_cmp clones e.0 ≡ in_map (option_copied copies.entry) e.0) effects.now) }
{
    let mut clones = BTreeMap::new(alloc);
    add_clone(&mut clones, copies, HEAD)?;
    for (snap, _) in effects {
        add_clone(&mut clones, copies, *snap)?;
    }
    Ok(clones)
}

// Adds a clone of the copy at a snap to clones of other copies of the family. None is made twice.
fn add_clone(clones: &mut Copies, copies: Option<&Copies>, snap: u64) -> Result<(), AllocError>
    requires { (q : ℕ) (copy : ObjCopy) → get nat_cmp clones.old q ≡ Some copy → in_map (option_copied copies) q ≡ Some copy }
    ensures { OnOk result ((q : ℕ) → get nat_cmp clones.new q ≡ (if snap == q then in_map (option_copied copies.entry) q else get nat_cmp clones.old q)) }
{
    if clones.contains_key(&snap) {
        return Ok(());
    }
    if let Some(copy) = copy_at(copies, snap) {
        let copy = copy.clone()?;
        clones.insert(snap, copy)?;
    }
    Ok(())
}

fn copy_at(copies: Option<&Copies>, snap: u64) -> Option<&ObjCopy>
    ensures { option_copied result ≡ in_map (option_copied copies.entry) snap }
{
    copies?.get(&snap)
}

// The bytes of the copies that effects are on, each copy once.
fn touched_bytes(copies: &Copies, effects: &[(u64, Effect)]) -> Option<u64>
    ensures { IfSome result (λ bytes. bytes ≡ specs_held.touched_bytes effects.now (get nat_cmp copies.now)) }
{
    let mut bytes = 0u64;
    let mut left = effects;
    while let Some((first, rest)) = left.split_first() {
        bytes = bytes.checked_add(counted(copies, first.0, rest)?)?;
        left = rest;
    }
    Some(bytes)
}

// The bytes of the copy at a snap, unless another effect is on it.
fn counted(copies: &Copies, snap: u64, others: &[(u64, Effect)]) -> Option<u64>
    ensures { IfSome result (λ bytes. bytes ≡ (if list_any (λ other. other.0 == snap) others.now then 0 else copy_size (get nat_cmp copies.now snap))) }
{
    if is_on(others, snap) {
        return Some(0);
    }
    size_of(copies.get(&snap))
}

fn is_on(effects: &[(u64, Effect)], snap: u64) -> bool
    ensures { result ≡ list_any (λ other. other.0 == snap) effects.now }
{
    effects.iter().any(|effect| effect.0 == snap)
}

fn size_of(copy: Option<&ObjCopy>) -> Option<u64>
    ensures { IfSome result (λ bytes. bytes ≡ copy_size (option_copied copy.entry)) }
{
    match copy {
        Some(copy) => copy.size(),
        None => Some(0),
    }
}
