ghost use Rattle.std.specs.Prelude.{◌≡◌, nat_le, ◌&&◌};
ghost use Rattle.std.specs.Option.{option_copied};
ghost use Rattle.pgs_words.specs.Forms.{Gives, left, taken};
ghost use Rattle.pgs_words.specs.Fields as fields;
ghost use Rattle.pgs_words.specs.Fields.{is_plain, has_length};

use crate::cursor::{is_word, next};
use crate::read_error::ReadError;
use pgs_bytes::{Bytes, is_plain};
use std::alloc::Global;

// Whether a word has so many bytes, all of them those of words.
fn is_within(word: &[u8], least: usize, most: usize) -> bool
    ensures { result ≡ (has_length least most word.now && is_plain word.now) }
{
    least <= word.len() && word.len() <= most && is_plain(word)
}

/// The next word, which has 1 to so many bytes.
pub fn name(
    alloc: Global,
    words: Option<&[u8]>,
    most: usize,
) -> Result<(Bytes, Option<&[u8]>), ReadError>
    ensures { Gives (λ x. (x.0, left 32 (option_copied x.1))) result (taken (fields.word_of 1 most).read (left 32 (option_copied words.entry))) }
{
    let (word, words) = next(words, b' ')?;
    if is_within(word, 1, most) {
        return Ok((Bytes::from_slice(alloc, word)?, words));
    }
    Err(ReadError::Outside)
}

/// The next word, which has at most so many bytes. A dash stands for no byte.
pub fn dashed(
    alloc: Global,
    words: Option<&[u8]>,
    most: usize,
) -> Result<(Bytes, Option<&[u8]>), ReadError>
    ensures { Gives (λ x. (x.0, left 32 (option_copied x.1))) result (taken (fields.dash_or most).read (left 32 (option_copied words.entry))) }
{
    let (word, words) = next(words, b' ')?;
    if is_word(word, b"-") {
        return Ok((Bytes::new(alloc), words));
    }
    if is_within(word, 1, most) {
        return Ok((Bytes::from_slice(alloc, word)?, words));
    }
    Err(ReadError::Outside)
}
