ghost use Rattle.std.specs.Prelude.{◌≡◌};
ghost use Rattle.std.specs.Option.{option_copied};
ghost use Rattle.pgs_words.specs.Forms.{Gives, left};
ghost use Rattle.pgs_lines.specs.Steps as steps;

use super::basics::basic_in;
use super::objects::kind;
use crate::step::Step;
use pgs_words::{ReadError, ended, is_word, number};
use std::alloc::Global;

fn settle(words: Option<&[u8]>) -> Result<Step, ReadError>
    ensures { Gives (λ x. x) result (steps.settle_read (left 32 (option_copied words.entry))) }
{
    let (group, words) = number(words)?;
    ended(words)?;
    Ok(Step::Settle { group })
}

fn sweep(words: Option<&[u8]>) -> Result<Step, ReadError>
    ensures { Gives (λ x. x) result (steps.sweep_read (left 32 (option_copied words.entry))) }
{
    let (group, words) = number(words)?;
    let (kind, words) = kind(words)?;
    ended(words)?;
    Ok(Step::Sweep { group, kind })
}

fn list_obj(words: Option<&[u8]>) -> Result<Step, ReadError>
    ensures { Gives (λ x. x) result (steps.list_obj_read (left 32 (option_copied words.entry))) }
{
    let (group, words) = number(words)?;
    ended(words)?;
    Ok(Step::ListObj { group })
}

fn list_snap(words: Option<&[u8]>) -> Result<Step, ReadError>
    ensures { Gives (λ x. x) result (steps.list_snap_read (left 32 (option_copied words.entry))) }
{
    let (group, words) = number(words)?;
    ended(words)?;
    Ok(Step::ListSnap { group })
}

/// The step that a first word and the words behind it spell.
#[tactic(auto, unfolding(crate::specs::Steps::step_rows, crate::specs::Steps::step_read))]
pub fn step_in(alloc: Global, word: &[u8], words: Option<&[u8]>) -> Result<Step, ReadError>
    ensures { Gives (λ x. x) result (steps.step_read word.now (left 32 (option_copied words.entry))) }
{
    if is_word(word, b"settle") {
        return settle(words);
    }
    if is_word(word, b"sweep") {
        return sweep(words);
    }
    if is_word(word, b"list-obj") {
        return list_obj(words);
    }
    if is_word(word, b"list-snap") {
        return list_snap(words);
    }
    let basic = basic_in(alloc, word, words)?;
    Ok(Step::Basic { basic })
}
