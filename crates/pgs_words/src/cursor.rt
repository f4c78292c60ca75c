//! The parts of a text, from the first on. What is left is an optional text: `None` has no part, and a
//! text has the parts between its separators, of which an empty text has one.
ghost use Rattle.std.specs.Prelude.{◌≡◌, ℕ, List, [], ◌∷◌, MatchOption, Option};
ghost use Rattle.std.specs.Option.{option_copied};
ghost use Rattle.pgs_words.specs.Forms.{Gives, parts_of, left, first_of, taken, none_left, same_text, after_front, fixed};

use crate::read_error::ReadError;

/// The text up to the first such byte, and what follows that byte. Where the text has none it is one part.
#[tactic(auto, using(crate::proofs::Cuts::cuts))]
pub fn cut(text: &[u8], byte: u8) -> Option<(&[u8], &[u8])>
    ensures { MatchOption result
        (parts_of byte text.now ≡ text.now ∷ [])
        (λ x. parts_of byte text.now ≡ x.0.now ∷ parts_of byte x.1.now) }
{
    for (i, b) in text.iter().enumerate() {
        if *b == byte {
            let (front, _) = text.split_at(i);
            let (_, rest) = text.split_at(i + 1);
            return Some((front, rest));
        }
    }
    None
}

/// The first part of a text, and what is left after it.
pub fn part(text: &[u8], byte: u8) -> (&[u8], Option<&[u8]>)
    ensures { parts_of byte text.now ≡ result.0.now ∷ left byte (option_copied result.1) }
{
    match cut(text, byte) {
        Some((part, rest)) => (part, Some(rest)),
        None => (text, None),
    }
}

/// The next part, and what is left after it.
pub fn next(parts: Option<&[u8]>, byte: u8) -> Result<(&[u8], Option<&[u8]>), ReadError>
    ensures { Gives (λ x. (x.0.now, left byte (option_copied x.1))) result (first_of (left byte (option_copied parts.entry))) }
{
    match parts {
        Some(text) => Ok(part(text, byte)),
        None => Err(ReadError::Outside),
    }
}

/// No part is left.
#[tactic(auto, using(crate::proofs::Cuts::never_none))]
pub fn parts_ended(parts: Option<&[u8]>, byte: u8) -> Result<(), ReadError>
    ensures { Gives (λ x. tt) result (none_left (left byte (option_copied parts.entry))) }
{
    match parts {
        Some(_) => Err(ReadError::Outside),
        None => Ok(()),
    }
}

/// No word is left.
pub fn ended(words: Option<&[u8]>) -> Result<(), ReadError>
    ensures { Gives (λ x. tt) result (none_left (left 32 (option_copied words.entry))) }
{
    parts_ended(words, b' ')
}

/// Whether a word is this one.
pub fn is_word(word: &[u8], wanted: &[u8]) -> bool
    ensures { result ≡ same_text word.now wanted.now }
{
    word == wanted
}

/// The next word is this one.
pub fn word<'a>(words: Option<&'a [u8]>, wanted: &[u8]) -> Result<Option<&'a [u8]>, ReadError>
    ensures { Gives (λ x. (tt, left 32 (option_copied x))) result (taken (fixed wanted.now) (left 32 (option_copied words.entry))) }
{
    let (word, words) = next(words, b' ')?;
    if is_word(word, wanted) {
        return Ok(words);
    }
    Err(ReadError::Outside)
}

/// What stands behind a front.
#[tactic(auto, using(crate::proofs::Fronts::fronts))]
pub fn after<'a>(text: &'a [u8], front: &[u8]) -> Option<&'a [u8]>
    ensures { option_copied result ≡ after_front front.now text.now }
{
    if text.len() < front.len() {
        return None;
    }
    let (begin, rest) = text.split_at(front.len());
    if is_word(begin, front) {
        return Some(rest);
    }
    None
}
