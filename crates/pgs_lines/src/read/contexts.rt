ghost use Rattle.std.specs.Prelude.{◌≡◌, Some};
ghost use Rattle.std.specs.Option.{option_copied};
ghost use Rattle.pgs_words.specs.Forms.{Gives, left, taken, all_read};
ghost use Rattle.pgs_words.specs.Fields as fields;
ghost use Rattle.pgs_lines.specs.Contexts as contexts;
ghost use Rattle.pgs_lines.specs.Choices.{listed_read};

use crate::context::Context;
use pgs_request::{SnapContext, Snaps};
use pgs_words::{ReadError, is_word, next, number_in, part, parts_ended};
use std::alloc::Global;

// The parts of a text between commas, as snaps.
fn snaps_in(alloc: Global, list: &[u8]) -> Result<Snaps, ReadError>
    ensures { Gives (λ x. x) result (all_read (fields.number).read (left 44 (Some list.now))) }
{
    let mut found = Snaps::new(alloc);
    let mut rest = Some(list);
    while let Some(text) = rest {
        let (word, more) = part(text, b',');
        found.push(u64::from(number_in(word)?))?;
        rest = more;
    }
    Ok(found)
}

// The same, of which there is at least one.
#[tactic(auto, using(crate::proofs::ContextLaws::snaps_read))]
fn listed(alloc: Global, list: &[u8]) -> Result<Snaps, ReadError>
    ensures { Gives (λ x. x) result ((contexts.snaps).read list.now) }
{
    snaps_in(alloc, list)
}

// The snaps behind a seq: none, or one part that has them all.
fn snaps(alloc: Global, parts: Option<&[u8]>) -> Result<Snaps, ReadError>
    ensures { Gives (λ x. x) result (listed_read contexts.snaps (left 58 (option_copied parts.entry))) }
{
    match parts {
        Some(text) => {
            let (list, more) = part(text, b':');
            let snaps = listed(alloc, list)?;
            parts_ended(more, b':')?;
            Ok(snaps)
        }
        None => Ok(Snaps::new(alloc)),
    }
}

fn given(alloc: Global, word: &[u8]) -> Result<SnapContext, ReadError>
    ensures { Gives (λ x. x) result ((contexts.given).read word.now) }
{
    let (seq, parts) = part(word, b':');
    let seq = u64::from(number_in(seq)?);
    let snaps = snaps(alloc, parts)?;
    Ok(SnapContext { seq, snaps })
}

/// CTX.
pub fn context(alloc: Global, words: Option<&[u8]>) -> Result<(Context, Option<&[u8]>), ReadError>
    ensures { Gives (λ x. (x.0, left 32 (option_copied x.1))) result (taken (contexts.context).read (left 32 (option_copied words.entry))) }
{
    let (word, words) = next(words, b' ')?;
    if is_word(word, b"-") {
        return Ok((Context::Dash, words));
    }
    let context = given(alloc, word)?;
    Ok((Context::Given { context }, words))
}
