ghost use Rattle.std.specs.Prelude.{◌≡◌, ◌++◌, ◌∷◌, OnOk, codes};
ghost use Rattle.pgs_lines.specs.Damages as damages;
ghost use Rattle.pgs_done.specs.Answers as answers;
ghost use Rattle.pgs_done.specs.Words.{behind};

use super::ops::{push_named, push_pair, push_value};
use super::words::{push_count, push_number, push_word};
use crate::damage_answer::DamageAnswer;
use pgs_lines::Damage;
use std::alloc::{AllocError, Global};

#[tactic(auto, using(crate::proofs::Behind::joins))]
fn push_flip(alloc: Global, at: u32, xor: u8, out: &mut Vec<u8>) -> Result<(), AllocError>
    ensures { OnOk result (out.new.items ≡ out.old.items ++ behind (codes "flip" ∷ (damages.flip_form).spell (at, xor))) }
{
    push_count(alloc, b"flip", u64::from(at), out)?;
    push_number(alloc, u64::from(xor), out)
}

/// Appends the words of what damage does, behind a space each.
pub fn push_damage(alloc: Global, damage: &Damage, out: &mut Vec<u8>) -> Result<(), AllocError>
    ensures { OnOk result (out.new.items ≡ out.old.items ++ behind ((damages.damage).spell damage.now)) }
{
    match damage {
        Damage::Lose => push_word(b"lose", out),
        Damage::Flip { at, xor } => push_flip(alloc, *at, *xor, out),
        Damage::Cut { size } => push_count(alloc, b"cut", u64::from(*size), out),
        Damage::SetData { payload } => push_value(alloc, b"data", payload, out),
        Damage::SetAttr { name, payload } => {
            push_pair(alloc, b"attr", name.as_slice(), payload, out)
        }
        Damage::RmAttr { name } => push_named(b"rmattr", name.as_slice(), out),
        Damage::SetOmap { key, payload } => push_pair(alloc, b"omap", key.as_slice(), payload, out),
        Damage::RmOmap { key } => push_named(b"rmomap", key.as_slice(), out),
        Damage::SetHeader { payload } => push_value(alloc, b"header", payload, out),
    }
}

/// Appends what a damage was answered.
pub fn push_damaged(
    alloc: Global,
    answer: DamageAnswer,
    out: &mut Vec<u8>,
) -> Result<(), AllocError>
    ensures { OnOk result (out.new.items ≡ out.old.items ++ behind (answers.damage_words answer)) }
{
    match answer {
        DamageAnswer::Damaged => push_word(b"damaged", out),
        DamageAnswer::BeingRead => push_word(b"being-read", out),
        DamageAnswer::ShardFull { bytes } => push_count(alloc, b"shard-full", bytes, out),
    }
}
