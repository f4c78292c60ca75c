ghost use Rattle.std.specs.Prelude.{◌≡◌};
ghost use Rattle.std.specs.Option.{option_copied};
ghost use Rattle.pgs_words.specs.Forms.{Gives, left};
ghost use Rattle.pgs_lines.specs.Damages as damages;

use super::payloads::last_payload;
use crate::damage::Damage;
use pgs_words::{ReadError, ended, is_word, name, next, number, positive_byte};
use std::alloc::Global;

fn lose(words: Option<&[u8]>) -> Result<Damage, ReadError>
    ensures { Gives (λ x. x) result (damages.lose_read (left 32 (option_copied words.entry))) }
{
    ended(words)?;
    Ok(Damage::Lose)
}

fn flip(words: Option<&[u8]>) -> Result<Damage, ReadError>
    ensures { Gives (λ x. x) result (damages.flip_read (left 32 (option_copied words.entry))) }
{
    let (at, words) = number(words)?;
    let (xor, words) = positive_byte(words)?;
    ended(words)?;
    Ok(Damage::Flip { at, xor })
}

fn cut(words: Option<&[u8]>) -> Result<Damage, ReadError>
    ensures { Gives (λ x. x) result (damages.cut_read (left 32 (option_copied words.entry))) }
{
    let (size, words) = number(words)?;
    ended(words)?;
    Ok(Damage::Cut { size })
}

fn set_attr(alloc: Global, words: Option<&[u8]>) -> Result<Damage, ReadError>
    ensures { Gives (λ x. x) result (damages.attr_read (left 32 (option_copied words.entry))) }
{
    let (name, words) = name(alloc, words, 64)?;
    let payload = last_payload(alloc, words)?;
    Ok(Damage::SetAttr { name, payload })
}

fn remove_attr(alloc: Global, words: Option<&[u8]>) -> Result<Damage, ReadError>
    ensures { Gives (λ x. x) result (damages.rmattr_read (left 32 (option_copied words.entry))) }
{
    let (name, words) = name(alloc, words, 64)?;
    ended(words)?;
    Ok(Damage::RmAttr { name })
}

fn set_omap(alloc: Global, words: Option<&[u8]>) -> Result<Damage, ReadError>
    ensures { Gives (λ x. x) result (damages.omap_read (left 32 (option_copied words.entry))) }
{
    let (key, words) = name(alloc, words, 255)?;
    let payload = last_payload(alloc, words)?;
    Ok(Damage::SetOmap { key, payload })
}

fn remove_omap(alloc: Global, words: Option<&[u8]>) -> Result<Damage, ReadError>
    ensures { Gives (λ x. x) result (damages.rmomap_read (left 32 (option_copied words.entry))) }
{
    let (key, words) = name(alloc, words, 255)?;
    ended(words)?;
    Ok(Damage::RmOmap { key })
}

/// DAMAGE: the last words of a damage.
#[tactic(auto, unfolding(crate::specs::Damages::damage_rows, crate::specs::Damages::damage_read))]
pub fn damage(alloc: Global, words: Option<&[u8]>) -> Result<Damage, ReadError>
    ensures { Gives (λ x. x) result ((damages.damage).read (left 32 (option_copied words.entry))) }
{
    let (word, words) = next(words, b' ')?;
    if is_word(word, b"lose") {
        return lose(words);
    }
    if is_word(word, b"flip") {
        return flip(words);
    }
    if is_word(word, b"cut") {
        return cut(words);
    }
    if is_word(word, b"data") {
        let payload = last_payload(alloc, words)?;
        return Ok(Damage::SetData { payload });
    }
    if is_word(word, b"attr") {
        return set_attr(alloc, words);
    }
    if is_word(word, b"rmattr") {
        return remove_attr(alloc, words);
    }
    if is_word(word, b"omap") {
        return set_omap(alloc, words);
    }
    if is_word(word, b"rmomap") {
        return remove_omap(alloc, words);
    }
    if is_word(word, b"header") {
        let payload = last_payload(alloc, words)?;
        return Ok(Damage::SetHeader { payload });
    }
    Err(ReadError::Outside)
}
