ghost use Rattle.std.specs.Prelude.{◌≡◌};
ghost use Rattle.std.specs.Option.{option_copied};
ghost use Rattle.pgs_words.specs.Forms.{Gives, left, taken, all_read};
ghost use Rattle.pgs_words.specs.Fields as fields;
ghost use Rattle.pgs_lines.specs.Objects as objects;

use crate::call::Call;
use crate::kind::Kind;
use crate::snap::Snap;
use pgs_words::{ReadError, is_word, next, number, number_in, part};
use sqlite_items::Items;
use std::alloc::Global;

/// SNAP.
pub fn snap(words: Option<&[u8]>) -> Result<(Snap, Option<&[u8]>), ReadError>
    ensures { Gives (λ x. (x.0, left 32 (option_copied x.1))) result (taken (objects.snap).read (left 32 (option_copied words.entry))) }
{
    let (word, words) = next(words, b' ')?;
    if is_word(word, b"head") {
        return Ok((Snap::Head, words));
    }
    let snap = number_in(word)?;
    if 0 < snap {
        return Ok((Snap::Clone { snap }, words));
    }
    Err(ReadError::Outside)
}

/// KIND.
pub fn kind(words: Option<&[u8]>) -> Result<(Kind, Option<&[u8]>), ReadError>
    ensures { Gives (λ x. (x.0, left 32 (option_copied x.1))) result (taken (objects.kind).read (left 32 (option_copied words.entry))) }
{
    let (word, words) = next(words, b' ')?;
    if is_word(word, b"shallow") {
        return Ok((Kind::Shallow, words));
    }
    if is_word(word, b"deep") {
        return Ok((Kind::Deep, words));
    }
    Err(ReadError::Outside)
}

/// CALL.
pub fn call(words: Option<&[u8]>) -> Result<(Call, Option<&[u8]>), ReadError>
    ensures { Gives (λ x. (x.0, left 32 (option_copied x.1))) result (taken (objects.call).read (left 32 (option_copied words.entry))) }
{
    let (word, words) = next(words, b' ')?;
    if is_word(word, b"list") {
        return Ok((Call::List, words));
    }
    if is_word(word, b"stat") {
        return Ok((Call::Stat, words));
    }
    if is_word(word, b"attrs") {
        return Ok((Call::Attrs, words));
    }
    if is_word(word, b"read") {
        return Ok((Call::Read, words));
    }
    if is_word(word, b"omap") {
        return Ok((Call::Omap, words));
    }
    if is_word(word, b"write") {
        return Ok((Call::Write, words));
    }
    Err(ReadError::Outside)
}

/// RANK.
pub fn rank(words: Option<&[u8]>) -> Result<(u8, Option<&[u8]>), ReadError>
    ensures { Gives (λ x. (x.0, left 32 (option_copied x.1))) result (taken (objects.rank).read (left 32 (option_copied words.entry))) }
{
    let (number, words) = number(words)?;
    if number <= 255 {
        return Ok((number as u8, words));
    }
    Err(ReadError::Outside)
}

// All words that are left, as numbers.
fn numbers(alloc: Global, words: Option<&[u8]>) -> Result<Items<u32>, ReadError>
    ensures { Gives (λ x. x) result (all_read (fields.number).read (left 32 (option_copied words.entry))) }
{
    let mut found = Items::new(alloc);
    let mut rest = words;
    while let Some(text) = rest {
        let (word, words) = part(text, b' ');
        found.push(number_in(word)?)?;
        rest = words;
    }
    Ok(found)
}

/// OSD OSD ..: one or more, the last words.
pub fn members(alloc: Global, words: Option<&[u8]>) -> Result<Items<u32>, ReadError>
    ensures { Gives (λ x. x) result ((objects.members_form).read (left 32 (option_copied words.entry))) }
{
    let members = numbers(alloc, words)?;
    if members.is_empty() {
        return Err(ReadError::Outside);
    }
    Ok(members)
}
