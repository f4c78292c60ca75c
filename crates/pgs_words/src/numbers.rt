ghost use Rattle.std.specs.Prelude.{◌≡◌, ◌^◌, ◌≤◌, ◌<◌, nat_lt, nat_le};
ghost use Rattle.std.specs.Option.{option_copied};
ghost use Rattle.pgs_words.specs.Forms.{Gives, left, taken, such};
ghost use Rattle.pgs_words.specs.Fields as fields;
ghost use Rattle.pgs_words.specs.Fields.{number_of, digits_from, digit_from};

use crate::cursor::next;
use crate::read_error::ReadError;

/// The number that a word spells.
#[tactic(auto, unfolding(crate::specs::Fields::number_of, crate::specs::Fields::digits_from))]
pub fn number_in(word: &[u8]) -> Result<u32, ReadError>
    ensures { Gives (λ n. n) result (number_of (2 ^ 32) word.now) }
{
    if word.is_empty() {
        return Err(ReadError::Outside);
    }
    if word[0] == b'0' {
        if word.len() == 1 {
            return Ok(0);
        }
        return Err(ReadError::Outside);
    }
    digits_in(word)
}

#[tactic(auto, unfolding(crate::specs::Fields::digits_from))]
fn digits_in(word: &[u8]) -> Result<u32, ReadError>
    ensures { Gives (λ n. n) result (digits_from (2 ^ 32) 0 word.now) }
{
    let mut n: u32 = 0;
    for b in word {
        match digit_after(n, *b) {
            Some(more) => n = more,
            None => return Err(ReadError::Outside),
        }
    }
    Ok(n)
}

// The number with a digit more.
fn digit_after(n: u32, b: u8) -> Option<u32>
    ensures { result ≡ digit_from (2 ^ 32) n b }
{
    if 48 <= b && b <= 57 {
        let more = u64::from(n) * 10 + u64::from(b - 48);
        if more < 4_294_967_296 {
            return Some(more as u32);
        }
    }
    None
}

/// The number that the next word spells.
pub fn number(words: Option<&[u8]>) -> Result<(u32, Option<&[u8]>), ReadError>
    ensures { Gives (λ x. (x.0, left 32 (option_copied x.1))) result (taken (fields.number).read (left 32 (option_copied words.entry))) }
{
    let (word, words) = next(words, b' ')?;
    let number = number_in(word)?;
    Ok((number, words))
}

/// The number from 1 on that the next word spells.
pub fn positive(words: Option<&[u8]>) -> Result<(u32, Option<&[u8]>), ReadError>
    ensures { Gives (λ x. (x.0, left 32 (option_copied x.1))) result (taken (fields.positive).read (left 32 (option_copied words.entry))) }
{
    let (number, words) = number(words)?;
    if 0 < number {
        return Ok((number, words));
    }
    Err(ReadError::Outside)
}

/// The number from 1 to 255 that the next word spells.
pub fn positive_byte(words: Option<&[u8]>) -> Result<(u8, Option<&[u8]>), ReadError>
    ensures { Gives (λ x. (x.0, left 32 (option_copied x.1))) result (taken (fields.positive_byte).read (left 32 (option_copied words.entry))) }
{
    let (number, words) = positive(words)?;
    if number <= 255 {
        return Ok((number as u8, words));
    }
    Err(ReadError::Outside)
}
