ghost use Rattle.std.specs.Prelude.{◌≡◌, ◌++◌, ◌∷◌, [], OnOk, codes};
ghost use Rattle.std.specs.Fmt.{decimal};
ghost use Rattle.pgs_words.specs.Fields.{dash_word};
ghost use Rattle.pgs_words.specs.Hex.{hex_spelled};
ghost use Rattle.pgs_lines.specs.Payload as payloads;
ghost use Rattle.pgs_done.specs.Words as words;
ghost use Rattle.pgs_done.specs.Words.{behind};

use pgs_bytes::Bytes;
use pgs_request::{Payload, Version};
use pgs_words::hex_digit;
use std::alloc::{AllocError, Global};

/// Appends a word, behind a space.
#[tactic(auto, using(crate::proofs::Behind::joins))]
pub fn push_word(word: &[u8], out: &mut Vec<u8>) -> Result<(), AllocError>
    ensures { OnOk result (out.new.items ≡ out.old.items ++ behind (word.now ∷ [])) }
{
    out.push(b' ')?;
    out.extend_from_slice(word)
}

/// Appends a number, behind a space.
#[tactic(auto, using(crate::proofs::Behind::joins))]
pub fn push_number(alloc: Global, number: u64, out: &mut Vec<u8>) -> Result<(), AllocError>
    ensures { OnOk result (out.new.items ≡ out.old.items ++ behind (decimal number ∷ [])) }
{
    let text = format!(in alloc; " {number}")?;
    out.extend_from_slice(text.as_bytes())
}

/// Appends a word and a number.
#[tactic(auto, using(crate::proofs::Behind::joins))]
pub fn push_count(
    alloc: Global,
    word: &[u8],
    count: u64,
    out: &mut Vec<u8>,
) -> Result<(), AllocError>
    ensures { OnOk result (out.new.items ≡ out.old.items ++ behind (word.now ∷ decimal count ∷ [])) }
{
    push_word(word, out)?;
    push_number(alloc, count, out)
}

/// Appends a word and two numbers.
#[tactic(auto, using(crate::proofs::Behind::joins))]
pub fn push_two(
    alloc: Global,
    word: &[u8],
    first: u64,
    second: u64,
    out: &mut Vec<u8>,
) -> Result<(), AllocError>
    ensures { OnOk result (out.new.items ≡ out.old.items ++ behind (word.now ∷ decimal first ∷ decimal second ∷ [])) }
{
    push_count(alloc, word, first, out)?;
    push_number(alloc, second, out)
}

/// Appends a word where something is so.
#[tactic(auto, using(crate::proofs::Behind::joins))]
pub fn push_where(is: bool, word: &[u8], out: &mut Vec<u8>) -> Result<(), AllocError>
    ensures { OnOk result (out.new.items ≡ out.old.items ++ behind (words.word_where is word.now)) }
{
    if is {
        return push_word(word, out);
    }
    Ok(())
}

/// Appends a word and a number, where there is a number.
#[tactic(auto, using(crate::proofs::Behind::joins))]
pub fn push_number_where(
    alloc: Global,
    word: &[u8],
    number: Option<u64>,
    out: &mut Vec<u8>,
) -> Result<(), AllocError>
    ensures { OnOk result (out.new.items ≡ out.old.items ++ behind (words.number_where word.now number)) }
{
    match number {
        Some(number) => push_count(alloc, word, number, out),
        None => Ok(()),
    }
}

/// Appends a version, behind a space.
#[tactic(auto, using(crate::proofs::Behind::joins))]
pub fn push_version(alloc: Global, version: Version, out: &mut Vec<u8>) -> Result<(), AllocError>
    ensures { OnOk result (out.new.items ≡ out.old.items ++ behind (words.version_word version ∷ [])) }
{
    let text = format!(in alloc; " {}'{}", version.epoch, version.number)?;
    out.extend_from_slice(text.as_bytes())
}

/// Appends a word that may be empty, behind a space.
pub fn push_dashed(word: &Bytes, out: &mut Vec<u8>) -> Result<(), AllocError>
    ensures { OnOk result (out.new.items ≡ out.old.items ++ behind (dash_word word.now ∷ [])) }
{
    if word.is_empty() {
        return push_word(b"-", out);
    }
    push_word(word.as_slice(), out)
}

// Appends the digits of bytes.
fn push_digits(bytes: &[u8], out: &mut Vec<u8>) -> Result<(), AllocError>
    ensures { OnOk result (out.new.items ≡ out.old.items ++ hex_spelled bytes.now) }
{
    for byte in bytes {
        out.push(hex_digit(*byte / 16))?;
        out.push(hex_digit(*byte % 16))?;
    }
    Ok(())
}

#[tactic(auto, using(crate::proofs::Behind::joins))]
fn push_hex(bytes: &[u8], out: &mut Vec<u8>) -> Result<(), AllocError>
    ensures { OnOk result (out.new.items ≡ out.old.items ++ (codes " hex:" ++ hex_spelled bytes.now)) }
{
    out.extend_from_slice(b" hex:")?;
    push_digits(bytes, out)
}

#[tactic(auto, using(crate::proofs::Behind::joins))]
fn push_text(bytes: &[u8], out: &mut Vec<u8>) -> Result<(), AllocError>
    ensures { OnOk result (out.new.items ≡ out.old.items ++ (codes " text:" ++ bytes.now)) }
{
    out.extend_from_slice(b" text:")?;
    out.extend_from_slice(bytes)
}

#[tactic(auto, using(crate::proofs::Behind::joins))]
fn push_fill(alloc: Global, count: u32, byte: u8, out: &mut Vec<u8>) -> Result<(), AllocError>
    ensures { OnOk result (out.new.items ≡ out.old.items ++ (codes " fill:" ++ (payloads.filled).spell (count, byte))) }
{
    let text = format!(in alloc; " fill:{count}:")?;
    out.extend_from_slice(text.as_bytes())?;
    out.push(hex_digit(byte / 16))?;
    out.push(hex_digit(byte % 16))?;
    Ok(())
}

/// Appends a payload as it is spelled, behind a space.
pub fn push_payload(alloc: Global, payload: &Payload, out: &mut Vec<u8>) -> Result<(), AllocError>
    ensures { OnOk result (out.new.items ≡ out.old.items ++ behind ((payloads.payload).spell payload.now ∷ [])) }
{
    match payload {
        Payload::Text { bytes } => push_text(bytes.as_slice(), out),
        Payload::Hex { bytes } => push_hex(bytes.as_slice(), out),
        Payload::Fill { count, byte } => push_fill(alloc, *count, *byte, out),
    }
}
