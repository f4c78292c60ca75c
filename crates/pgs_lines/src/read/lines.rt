ghost use Rattle.std.specs.Prelude.{◌≡◌};
ghost use Rattle.std.specs.Option.{option_copied};
ghost use Rattle.pgs_words.specs.Forms.{Gives, left};
ghost use Rattle.pgs_lines.specs.Lines as lines;

use super::objects::{call, members};
use super::steps::step_in;
use crate::line::Line;
use pgs_words::{ReadError, ended, is_word, number, part, positive};
use std::alloc::Global;

fn pool(words: Option<&[u8]>) -> Result<Line, ReadError>
    ensures { Gives (λ x. x) result (lines.pool_read (left 32 (option_copied words.entry))) }
{
    let (bits, words) = number(words)?;
    ended(words)?;
    Ok(Line::Pool { bits })
}

fn osd(words: Option<&[u8]>) -> Result<Line, ReadError>
    ensures { Gives (λ x. x) result (lines.osd_read (left 32 (option_copied words.entry))) }
{
    let (osd, words) = number(words)?;
    let (slots, words) = positive(words)?;
    ended(words)?;
    Ok(Line::Osd { osd, slots })
}

fn group(alloc: Global, words: Option<&[u8]>) -> Result<Line, ReadError>
    ensures { Gives (λ x. x) result (lines.group_read (left 32 (option_copied words.entry))) }
{
    let (group, words) = number(words)?;
    let (epoch, words) = positive(words)?;
    let members = members(alloc, words)?;
    Ok(Line::Group {
        group,
        epoch,
        members,
    })
}

fn fail(words: Option<&[u8]>) -> Result<Line, ReadError>
    ensures { Gives (λ x. x) result (lines.fail_read (left 32 (option_copied words.entry))) }
{
    let (group, words) = number(words)?;
    let (osd, words) = number(words)?;
    let (call, words) = call(words)?;
    let (number, words) = positive(words)?;
    ended(words)?;
    Ok(Line::Fail {
        group,
        osd,
        call,
        number,
    })
}

fn end(words: Option<&[u8]>) -> Result<Line, ReadError>
    ensures { Gives (λ x. x) result (lines.end_read (left 32 (option_copied words.entry))) }
{
    ended(words)?;
    Ok(Line::End)
}

/// The line that a first word and the words behind it spell.
#[tactic(auto, unfolding(crate::specs::Lines::line_rows, crate::specs::Lines::line_read))]
fn line_of(alloc: Global, word: &[u8], words: Option<&[u8]>) -> Result<Line, ReadError>
    ensures { Gives (λ x. x) result (lines.line_read word.now (left 32 (option_copied words.entry))) }
{
    if is_word(word, b"pool") {
        return pool(words);
    }
    if is_word(word, b"osd") {
        return osd(words);
    }
    if is_word(word, b"group") {
        return group(alloc, words);
    }
    if is_word(word, b"fail") {
        return fail(words);
    }
    if is_word(word, b"end") {
        return end(words);
    }
    let step = step_in(alloc, word, words)?;
    Ok(Line::Step { step })
}

/// The line that a text spells.
pub fn line_in(alloc: Global, text: &[u8]) -> Result<Line, ReadError>
    ensures { Gives (λ x. x) result ((lines.line).read text.now) }
{
    let (word, words) = part(text, b' ');
    line_of(alloc, word, words)
}
