//! Bytes that are spelled by hexadecimal digits.
ghost use Rattle.std.specs.Prelude.{◌≡◌, ◌<◌};
ghost use Rattle.pgs_words.specs.Forms.{Gives};
ghost use Rattle.pgs_words.specs.Hex as digits;

use crate::read_error::ReadError;
use pgs_bytes::Bytes;
use std::alloc::Global;

// The number of a digit.
fn value(b: u8) -> Option<u8>
    ensures { result ≡ digits.hex_value b }
{
    if 48 <= b && b <= 57 {
        return Some(b - 48);
    }
    if 97 <= b && b <= 102 {
        return Some(b - 87);
    }
    None
}

// The byte of two digits.
fn pair(a: u8, b: u8) -> Option<u8>
    ensures { result ≡ digits.hex_pair a b }
{
    let high = value(a)?;
    let low = value(b)?;
    if high < 16 && low < 16 {
        return Some(high * 16 + low);
    }
    None
}

/// The byte that a text of two digits spells.
#[tactic(auto, using(crate::proofs::HexLaws::two_digits))]
pub fn hex_byte_in(text: &[u8]) -> Result<u8, ReadError>
    ensures { Gives (λ n. n) result ((digits.hex_byte).read text.now) }
{
    if text.len() != 2 {
        return Err(ReadError::Outside);
    }
    match pair(text[0], text[1]) {
        Some(byte) => Ok(byte),
        None => Err(ReadError::Outside),
    }
}

/// The bytes that a text spells, by two digits each.
#[tactic(auto, using(crate::proofs::HexLaws::digits))]
pub fn hex_in(alloc: Global, text: &[u8]) -> Result<Bytes, ReadError>
    ensures { Gives (λ x. x) result ((digits.hex).read text.now) }
{
    let mut found = Vec::new(alloc);
    let mut rest = text;
    while 2 <= rest.len() {
        match pair(rest[0], rest[1]) {
            Some(byte) => found.push(byte)?,
            None => return Err(ReadError::Outside),
        }
        let (_, more) = rest.split_at(2);
        rest = more;
    }
    if rest.is_empty() {
        return Ok(Bytes::from_vec(found));
    }
    Err(ReadError::Outside)
}

/// The digit of a number below 16.
pub fn hex_digit(number: u8) -> u8
    requires { number < 16 }
    ensures { result ≡ digits.hex_digit number }
{
    if number < 10 {
        return 48 + number;
    }
    87 + number
}
