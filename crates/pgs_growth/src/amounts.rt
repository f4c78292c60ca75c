//! The bytes of the parts that edits change, before and after them.
ghost use Rattle.std.specs.Prelude.{◌≡◌, ◌+◌, ⊤, length, IfSome};
ghost use Rattle.pgs_bytes.specs.Edits.{written};
ghost use Rattle.pgs_copy.specs.Pairs.{value_at, IsInOrder};
ghost use Rattle.pgs_copy.specs.Sizes.{fitting};
ghost use Rattle.pgs_growth.specs.Amounts as amounts;

use pgs_bytes::Bytes;
use pgs_copy::{Effect, ObjCopy, Pairs};

/// The bytes that edits take from a copy, or nothing where they are more than a `u64` holds.
pub fn taken(copy: &ObjCopy, effects: &[(u64, Effect)]) -> Option<u64>
    ensures value { result ≡ fitting (amounts.taken effects.now copy.now) }
    ensures ready { IfSome result (λ _. amounts.AreReady effects.now copy.now) }
{
    let mut sum = 0u64;
    for (_, effect) in effects {
        sum = sum.checked_add(taken_by(copy, effect))?;
    }
    Some(sum)
}

/// The bytes that edits add to a copy, or nothing where they are more than a `u64` holds.
pub fn added(copy: &ObjCopy, effects: &[(u64, Effect)]) -> Option<u64>
    ensures { result ≡ fitting (amounts.added effects.now copy.now) }
{
    let mut sum = 0u64;
    for (_, effect) in effects {
        sum = sum.checked_add(added_by(copy, effect))?;
    }
    Some(sum)
}

fn taken_by(copy: &ObjCopy, effect: &Effect) -> u64
    ensures value { result ≡ amounts.taken_by effect.now copy.now }
    ensures ready { amounts.IsReady effect.now copy.now }
{
    match effect {
        Effect::SetData { .. } | Effect::Write { .. } | Effect::Truncate { .. } => {
            copy.bytes.len() as u64
        }
        Effect::SetAttr { name, .. } | Effect::RmAttr { name } => entry_size(name, &copy.attrs),
        Effect::SetOmap { key, .. } | Effect::RmOmap { key } => entry_size(key, &copy.omap),
        Effect::SetHeader { .. } => copy.header.len() as u64,
        Effect::Clear | Effect::Clone { .. } | Effect::Remove | Effect::Install { .. } => 0,
    }
}

fn added_by(copy: &ObjCopy, effect: &Effect) -> u64
    ensures { result ≡ amounts.added_by effect.now copy.now }
{
    match effect {
        Effect::SetData { bytes } => bytes.len() as u64,
        Effect::Write { at, bytes } => written_len(*at, bytes, &copy.bytes),
        Effect::Truncate { size } => u64::from(*size),
        Effect::SetAttr { name, value } => pair_size(name, value),
        Effect::SetOmap { key, value } => pair_size(key, value),
        Effect::SetHeader { bytes } => bytes.len() as u64,
        Effect::RmAttr { .. }
        | Effect::RmOmap { .. }
        | Effect::Clear
        | Effect::Clone { .. }
        | Effect::Remove
        | Effect::Install { .. } => 0,
    }
}

// The bytes of a name with its value, or none where it isn't there.
fn entry_size(name: &Bytes, pairs: &Pairs) -> u64
    ensures value { result ≡ amounts.entry_size name.now (value_at name.now pairs.now) }
    ensures in_order { IsInOrder pairs.now }
{
    match pairs.get(name) {
        Some(value) => pair_size(name, value),
        None => 0,
    }
}

fn pair_size(name: &Bytes, value: &Bytes) -> u64
    ensures { result ≡ length name.now + length value.now }
{
    name.as_slice().len() as u64 + value.as_slice().len() as u64
}

// The length of data after a piece was written over it from a place on.
#[tactic(auto, using(crate::proofs::Lengths::length_written))]
fn written_len(at: u32, piece: &Bytes, old: &Bytes) -> u64
    ensures { result ≡ length (written at piece.now old.now) }
{
    let end = u64::from(at) + piece.as_slice().len() as u64;
    end.max(old.len() as u64)
}
