ghost use Rattle.std.specs.Prelude.{◌≡◌, ℕ, take, IfOk, OnOk, OnErr};
ghost use Rattle.std.specs.Option.{option_copied};
ghost use Rattle.std.specs.Ordering.{nat_cmp};
ghost use Rattle.std.specs.BTreeMap.{get};
ghost use Rattle.pgs_copy.specs.Copies as copies_of;

use crate::damage::Damage;
use crate::obj_copy::ObjCopy;
use pgs_bytes::Bytes;
use std::alloc::{AllocError, Global};
use std::collections::BTreeMap;

/// Does the damage to the copy at the snap, or nothing where memory runs out. Only damage that gives a part another value takes memory.
pub fn apply_damage(
    alloc: Global,
    copies: &mut BTreeMap<u64, ObjCopy>,
    snap: u64,
    damage: &Damage,
) -> Result<(), AllocError>
    ensures ok { OnOk result
        ((q : ℕ) → get nat_cmp copies.new q ≡ copies_of.after_damage snap damage.now (get nat_cmp copies.old) q) }
    ensures err { OnErr result ((q : ℕ) → get nat_cmp copies.new q ≡ get nat_cmp copies.old q) }
{
    if let Damage::Lose = damage {
        copies.remove(&snap);
        return Ok(());
    }
    if let Some(copy) = copies.get_mut(&snap) {
        hurt(copy, damage)?;
        return Ok(());
    }
    if !makes_copy(damage) {
        return Ok(());
    }
    let mut copy = ObjCopy::new(alloc);
    hurt(&mut copy, damage)?;
    copies.insert(snap, copy)?;
    Ok(())
}

/// What the damage leaves of a copy, if one is there, made beside it.
pub fn damaged(
    alloc: Global,
    copy: Option<&ObjCopy>,
    damage: &Damage,
) -> Result<Option<ObjCopy>, AllocError>
    ensures { IfOk result (λ left. left ≡ copies_of.damaged damage.now (option_copied copy.entry)) }
{
    if let Damage::Lose = damage {
        return Ok(None);
    }
    let mut left = match copy {
        Some(copy) => copy.clone()?,
        None => {
            if !makes_copy(damage) {
                return Ok(None);
            }
            ObjCopy::new(alloc)
        }
    };
    hurt(&mut left, damage)?;
    Ok(Some(left))
}

/// Whether the damage makes a copy where none is there.
pub fn makes_copy(damage: &Damage) -> bool
    ensures { result ≡ copies_of.makes_copy damage.now }
{
    matches!(
        damage,
        Damage::SetData { .. }
            | Damage::SetAttr { .. }
            | Damage::SetOmap { .. }
            | Damage::SetHeader { .. }
    )
}

// Does damage to a copy that is there, or nothing where memory runs out.
fn hurt(copy: &mut ObjCopy, damage: &Damage) -> Result<(), AllocError>
    ensures ok { OnOk result (copy.new ≡ copies_of.hurt damage.now copy.old) }
    ensures err { OnErr result (copy.new ≡ copy.old) }
{
    match damage {
        Damage::Flip { at, xor } => flip(&mut copy.bytes, *at, *xor),
        Damage::Cut { size } => cut(&mut copy.bytes, *size)?,
        Damage::SetData { bytes } => copy.bytes = bytes.clone()?,
        Damage::SetAttr { name, value } => {
            let name = name.clone()?;
            let value = value.clone()?;
            copy.attrs.set(name, value)?;
        }
        Damage::RmAttr { name } => copy.attrs.remove(name),
        Damage::SetOmap { key, value } => {
            let key = key.clone()?;
            let value = value.clone()?;
            copy.omap.set(key, value)?;
        }
        Damage::RmOmap { key } => copy.omap.remove(key),
        Damage::SetHeader { bytes } => copy.header = bytes.clone()?,
        Damage::Lose => {}
    }
    Ok(())
}

fn flip(bytes: &mut Bytes, at: u32, xor: u8)
    ensures { bytes.new ≡ copies_of.flipped at xor bytes.old }
{
    let at = at as usize;
    if at < bytes.len() {
        let byte = bytes.as_slice()[at];
        bytes.set(at, byte ^ xor);
    }
}

// Cuts bytes to a size, or nothing where memory runs out.
#[tactic(auto, using(crate::proofs::Cutting::cut_short, crate::proofs::Cutting::cut_long))]
fn cut(bytes: &mut Bytes, size: u32) -> Result<(), AllocError>
    ensures ok { OnOk result (bytes.new ≡ take size bytes.old) }
    ensures err { OnErr result (bytes.new ≡ bytes.old) }
{
    let size = size as usize;
    if size < bytes.len() {
        bytes.resize(size)?;
    }
    Ok(())
}
