ghost use Rattle.std.specs.Prelude.{◌≡◌};
ghost use Rattle.std.specs.Option.{option_copied};
ghost use Rattle.pgs_words.specs.Forms.{Gives, left, taken};
ghost use Rattle.pgs_lines.specs.Objects as objects;

use super::payloads::last_payload;
use pgs_bytes::Bytes;
use pgs_request::Op;
use pgs_words::{ReadError, ended, is_word, name, next, number};
use std::alloc::Global;

fn is_user(name: &[u8]) -> bool
    ensures { result ≡ objects.is_user name.now }
{
    match name.split_first() {
        Some((first, more)) => *first == b'_' && !more.is_empty(),
        None => false,
    }
}

// The name of a user attribute.
fn attr_name(alloc: Global, words: Option<&[u8]>) -> Result<(Bytes, Option<&[u8]>), ReadError>
    ensures { Gives (λ x. (x.0, left 32 (option_copied x.1))) result (taken (objects.attr_name).read (left 32 (option_copied words.entry))) }
{
    let (name, words) = name(alloc, words, 64)?;
    if is_user(name.as_slice()) {
        return Ok((name, words));
    }
    Err(ReadError::Outside)
}

fn write(alloc: Global, words: Option<&[u8]>) -> Result<Op, ReadError>
    ensures { Gives (λ x. x) result (objects.put_read (left 32 (option_copied words.entry))) }
{
    let (at, words) = number(words)?;
    let payload = last_payload(alloc, words)?;
    Ok(Op::Write { at, payload })
}

fn truncate(words: Option<&[u8]>) -> Result<Op, ReadError>
    ensures { Gives (λ x. x) result (objects.trunc_read (left 32 (option_copied words.entry))) }
{
    let (size, words) = number(words)?;
    ended(words)?;
    Ok(Op::Truncate { size })
}

fn set_attr(alloc: Global, words: Option<&[u8]>) -> Result<Op, ReadError>
    ensures { Gives (λ x. x) result (objects.attr_read (left 32 (option_copied words.entry))) }
{
    let (name, words) = attr_name(alloc, words)?;
    let payload = last_payload(alloc, words)?;
    Ok(Op::SetAttr { name, payload })
}

fn remove_attr(alloc: Global, words: Option<&[u8]>) -> Result<Op, ReadError>
    ensures { Gives (λ x. x) result (objects.rmattr_read (left 32 (option_copied words.entry))) }
{
    let (name, words) = attr_name(alloc, words)?;
    ended(words)?;
    Ok(Op::RmAttr { name })
}

fn set_omap(alloc: Global, words: Option<&[u8]>) -> Result<Op, ReadError>
    ensures { Gives (λ x. x) result (objects.omap_read (left 32 (option_copied words.entry))) }
{
    let (key, words) = name(alloc, words, 255)?;
    let payload = last_payload(alloc, words)?;
    Ok(Op::SetOmap { key, payload })
}

fn remove_omap(alloc: Global, words: Option<&[u8]>) -> Result<Op, ReadError>
    ensures { Gives (λ x. x) result (objects.rmomap_read (left 32 (option_copied words.entry))) }
{
    let (key, words) = name(alloc, words, 255)?;
    ended(words)?;
    Ok(Op::RmOmap { key })
}

fn remove(words: Option<&[u8]>) -> Result<Op, ReadError>
    ensures { Gives (λ x. x) result (objects.remove_read (left 32 (option_copied words.entry))) }
{
    ended(words)?;
    Ok(Op::Remove)
}

/// OP: the last words of a write.
#[tactic(auto, unfolding(crate::specs::Objects::op_rows, crate::specs::Objects::op_read))]
pub fn op(alloc: Global, words: Option<&[u8]>) -> Result<Op, ReadError>
    ensures { Gives (λ x. x) result ((objects.op).read (left 32 (option_copied words.entry))) }
{
    let (word, words) = next(words, b' ')?;
    if is_word(word, b"full") {
        let payload = last_payload(alloc, words)?;
        return Ok(Op::Full { payload });
    }
    if is_word(word, b"write") {
        return write(alloc, words);
    }
    if is_word(word, b"trunc") {
        return truncate(words);
    }
    if is_word(word, b"attr") {
        return set_attr(alloc, words);
    }
    if is_word(word, b"rmattr") {
        return remove_attr(alloc, words);
    }
    if is_word(word, b"omap") {
        return set_omap(alloc, words);
    }
    if is_word(word, b"rmomap") {
        return remove_omap(alloc, words);
    }
    if is_word(word, b"header") {
        let payload = last_payload(alloc, words)?;
        return Ok(Op::SetHeader { payload });
    }
    if is_word(word, b"remove") {
        return remove(words);
    }
    Err(ReadError::Outside)
}
