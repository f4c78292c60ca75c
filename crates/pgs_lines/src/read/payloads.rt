ghost use Rattle.std.specs.Prelude.{◌≡◌};
ghost use Rattle.std.specs.Option.{option_copied};
ghost use Rattle.pgs_words.specs.Forms.{Gives, left};
ghost use Rattle.pgs_lines.specs.Payload as payloads;
ghost use Rattle.pgs_lines.specs.Objects as objects;

use pgs_bytes::{Bytes, is_plain};
use pgs_request::Payload;
use pgs_words::{ReadError, after, ended, hex_byte_in, hex_in, next, number_in, part, parts_ended};
use std::alloc::Global;

fn text(alloc: Global, text: &[u8]) -> Result<Payload, ReadError>
    ensures { Gives (λ x. x) result (payloads.text_read text.now) }
{
    if is_plain(text) {
        let bytes = Bytes::from_slice(alloc, text)?;
        return Ok(Payload::Text { bytes });
    }
    Err(ReadError::Outside)
}

fn hex(alloc: Global, text: &[u8]) -> Result<Payload, ReadError>
    ensures { Gives (λ x. x) result (payloads.hex_payload_read text.now) }
{
    let bytes = hex_in(alloc, text)?;
    Ok(Payload::Hex { bytes })
}

fn fill(text: &[u8]) -> Result<Payload, ReadError>
    ensures { Gives (λ x. x) result (payloads.fill_read text.now) }
{
    let (count, rest) = part(text, b':');
    let count = number_in(count)?;
    let (byte, rest) = next(rest, b':')?;
    let byte = hex_byte_in(byte)?;
    parts_ended(rest, b':')?;
    Ok(Payload::Fill { count, byte })
}

/// The payload that a word spells.
#[tactic(auto, unfolding(crate::specs::Payload::payload_fronts, crate::specs::Payload::payload_read))]
fn payload_in(alloc: Global, word: &[u8]) -> Result<Payload, ReadError>
    ensures { Gives (λ x. x) result ((payloads.payload).read word.now) }
{
    if let Some(bytes) = after(word, b"text:") {
        return text(alloc, bytes);
    }
    if let Some(digits) = after(word, b"hex:") {
        return hex(alloc, digits);
    }
    if let Some(rest) = after(word, b"fill:") {
        return fill(rest);
    }
    Err(ReadError::Outside)
}

/// The last word, as a payload.
pub fn last_payload(alloc: Global, words: Option<&[u8]>) -> Result<Payload, ReadError>
    ensures { Gives (λ x. x) result ((objects.last_payload).read (left 32 (option_copied words.entry))) }
{
    let (word, words) = next(words, b' ')?;
    let payload = payload_in(alloc, word)?;
    ended(words)?;
    Ok(payload)
}
