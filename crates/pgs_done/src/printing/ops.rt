ghost use Rattle.std.specs.Prelude.{◌≡◌, ◌++◌, ◌∷◌, [], OnOk};
ghost use Rattle.pgs_lines.specs.Objects as objects;
ghost use Rattle.pgs_lines.specs.Payload as payloads;
ghost use Rattle.pgs_done.specs.Words.{behind};
ghost use Rattle.pgs_request.specs.declared.op.Op.TheVariants as ops;

use super::words::{push_count, push_payload, push_word};
use pgs_request::{Op, Payload};
use std::alloc::{AllocError, Global};

/// Appends a word and a payload.
#[tactic(auto, using(crate::proofs::Behind::joins))]
pub fn push_value(
    alloc: Global,
    word: &[u8],
    payload: &Payload,
    out: &mut Vec<u8>,
) -> Result<(), AllocError>
    ensures { OnOk result (out.new.items ≡ out.old.items ++ behind (word.now ∷ (payloads.payload).spell payload.now ∷ [])) }
{
    push_word(word, out)?;
    push_payload(alloc, payload, out)
}

// Appends a word, a place and a payload.
#[tactic(auto, using(crate::proofs::Behind::joins))]
fn push_put(alloc: Global, at: u32, payload: &Payload, out: &mut Vec<u8>) -> Result<(), AllocError>
    ensures { OnOk result (out.new.items ≡ out.old.items ++ behind ((objects.op).spell (ops.Write at payload.now))) }
{
    push_count(alloc, b"write", u64::from(at), out)?;
    push_payload(alloc, payload, out)
}

/// Appends a word and a name.
#[tactic(auto, using(crate::proofs::Behind::joins))]
pub fn push_named(word: &[u8], name: &[u8], out: &mut Vec<u8>) -> Result<(), AllocError>
    ensures { OnOk result (out.new.items ≡ out.old.items ++ behind (word.now ∷ name.now ∷ [])) }
{
    push_word(word, out)?;
    push_word(name, out)
}

/// Appends a word, a name and a payload.
#[tactic(auto, using(crate::proofs::Behind::joins))]
pub fn push_pair(
    alloc: Global,
    word: &[u8],
    name: &[u8],
    payload: &Payload,
    out: &mut Vec<u8>,
) -> Result<(), AllocError>
    ensures { OnOk result (out.new.items ≡ out.old.items ++ behind (word.now ∷ name.now ∷ (payloads.payload).spell payload.now ∷ [])) }
{
    push_named(word, name, out)?;
    push_payload(alloc, payload, out)
}

/// Appends the words of what a write does, behind a space each.
pub fn push_op(alloc: Global, op: &Op, out: &mut Vec<u8>) -> Result<(), AllocError>
    ensures { OnOk result (out.new.items ≡ out.old.items ++ behind ((objects.op).spell op.now)) }
{
    match op {
        Op::Full { payload } => push_value(alloc, b"full", payload, out),
        Op::Write { at, payload } => push_put(alloc, *at, payload, out),
        Op::Truncate { size } => push_count(alloc, b"trunc", u64::from(*size), out),
        Op::SetAttr { name, payload } => {
            push_pair(alloc, b"attr", name.as_slice(), payload, out)
        }
        Op::RmAttr { name } => push_named(b"rmattr", name.as_slice(), out),
        Op::SetOmap { key, payload } => push_pair(alloc, b"omap", key.as_slice(), payload, out),
        Op::RmOmap { key } => push_named(b"rmomap", key.as_slice(), out),
        Op::SetHeader { payload } => push_value(alloc, b"header", payload, out),
        Op::Remove => push_word(b"remove", out),
    }
}
