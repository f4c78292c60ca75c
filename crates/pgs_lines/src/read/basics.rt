ghost use Rattle.std.specs.Prelude.{◌≡◌};
ghost use Rattle.std.specs.Option.{option_copied};
ghost use Rattle.pgs_words.specs.Forms.{Gives, left, last};
ghost use Rattle.pgs_words.specs.Fields as fields;
ghost use Rattle.pgs_lines.specs.Basics as basics;

use super::contexts::context;
use super::damages::damage;
use super::objects::{kind, members, rank, snap};
use super::ops::op;
use crate::basic::Basic;
use crate::object::Object;
use pgs_words::{ReadError, dashed, ended, is_word, name, number};
use std::alloc::Global;

fn write(alloc: Global, words: Option<&[u8]>) -> Result<Basic, ReadError>
    ensures { Gives (λ x. x) result (basics.write_read (left 32 (option_copied words.entry))) }
{
    let (client, words) = number(words)?;
    let (serial, words) = number(words)?;
    let (space, words) = dashed(alloc, words, 64)?;
    let (key, words) = dashed(alloc, words, 255)?;
    let (name, words) = name(alloc, words, 255)?;
    let (context, words) = context(alloc, words)?;
    let op = op(alloc, words)?;
    let object = Object { space, key, name };
    Ok(Basic::Write {
        client,
        serial,
        object,
        context,
        op,
    })
}

fn collect(words: Option<&[u8]>) -> Result<Basic, ReadError>
    ensures { Gives (λ x. x) result (basics.collect_read (left 32 (option_copied words.entry))) }
{
    let (group, words) = number(words)?;
    let (client, words) = number(words)?;
    let (serial, words) = number(words)?;
    ended(words)?;
    Ok(Basic::Collect {
        group,
        client,
        serial,
    })
}

// G OSD, the last words.
fn member(words: Option<&[u8]>) -> Result<(u32, u32), ReadError>
    ensures { Gives (λ x. x) result ((basics.member_form).read (left 32 (option_copied words.entry))) }
{
    let (group, words) = number(words)?;
    let (osd, words) = number(words)?;
    ended(words)?;
    Ok((group, osd))
}

// A number, the last word.
fn only(words: Option<&[u8]>) -> Result<u32, ReadError>
    ensures { Gives (λ x. x) result ((last fields.number).read (left 32 (option_copied words.entry))) }
{
    let (number, words) = number(words)?;
    ended(words)?;
    Ok(number)
}

fn begin(words: Option<&[u8]>) -> Result<Basic, ReadError>
    ensures { Gives (λ x. x) result (basics.begin_read (left 32 (option_copied words.entry))) }
{
    let (group, words) = number(words)?;
    let (kind, words) = kind(words)?;
    ended(words)?;
    Ok(Basic::Begin { group, kind })
}

fn damage_step(alloc: Global, words: Option<&[u8]>) -> Result<Basic, ReadError>
    ensures { Gives (λ x. x) result (basics.damage_read (left 32 (option_copied words.entry))) }
{
    let (group, words) = number(words)?;
    let (osd, words) = number(words)?;
    let (space, words) = dashed(alloc, words, 64)?;
    let (key, words) = dashed(alloc, words, 255)?;
    let (name, words) = name(alloc, words, 255)?;
    let (snap, words) = snap(words)?;
    let damage = damage(alloc, words)?;
    let object = Object { space, key, name };
    Ok(Basic::Damage {
        group,
        osd,
        object,
        snap,
        damage,
    })
}

fn interval(alloc: Global, words: Option<&[u8]>) -> Result<Basic, ReadError>
    ensures { Gives (λ x. x) result (basics.interval_read (left 32 (option_copied words.entry))) }
{
    let (group, words) = number(words)?;
    let acting = members(alloc, words)?;
    Ok(Basic::Interval { group, acting })
}

fn job(words: Option<&[u8]>) -> Result<Basic, ReadError>
    ensures { Gives (λ x. x) result (basics.job_read (left 32 (option_copied words.entry))) }
{
    let (group, words) = number(words)?;
    let (kind, words) = kind(words)?;
    let (rank, words) = rank(words)?;
    let (moment, words) = number(words)?;
    ended(words)?;
    Ok(Basic::Job {
        group,
        kind,
        rank,
        moment,
    })
}

// The step that a first word and the words behind it spell, where it says who acts or which scrubs may begin.
#[tactic(auto, unfolding(crate::specs::Basics::plan_rows, crate::specs::Basics::plan_read))]
fn plan_in(alloc: Global, word: &[u8], words: Option<&[u8]>) -> Result<Basic, ReadError>
    ensures { Gives (λ x. x) result (basics.plan_read word.now (left 32 (option_copied words.entry))) }
{
    if is_word(word, b"interval") {
        return interval(alloc, words);
    }
    if is_word(word, b"claim") {
        let group = only(words)?;
        return Ok(Basic::Claim { group });
    }
    if is_word(word, b"release") {
        let (group, osd) = member(words)?;
        return Ok(Basic::Release { group, osd });
    }
    if is_word(word, b"job") {
        return job(words);
    }
    if is_word(word, b"unjob") {
        let group = only(words)?;
        return Ok(Basic::Unjob { group });
    }
    if is_word(word, b"pick") {
        let moment = only(words)?;
        return Ok(Basic::Pick { moment });
    }
    Err(ReadError::Outside)
}

// The step of a scrub that a first word and the words behind it spell.
#[tactic(auto, unfolding(crate::specs::Basics::scrub_rows, crate::specs::Basics::scrub_read))]
fn scrub_in(alloc: Global, word: &[u8], words: Option<&[u8]>) -> Result<Basic, ReadError>
    ensures { Gives (λ x. x) result (basics.scrub_read word.now (left 32 (option_copied words.entry))) }
{
    if is_word(word, b"begin") {
        return begin(words);
    }
    if is_word(word, b"open") {
        let group = only(words)?;
        return Ok(Basic::Open { group });
    }
    if is_word(word, b"scan") {
        let (group, osd) = member(words)?;
        return Ok(Basic::Scan { group, osd });
    }
    if is_word(word, b"take") {
        let (group, osd) = member(words)?;
        return Ok(Basic::Take { group, osd });
    }
    if is_word(word, b"close") {
        let group = only(words)?;
        return Ok(Basic::Close { group });
    }
    plan_in(alloc, word, words)
}

/// The step that a first word and the words behind it spell, where it does one thing.
#[tactic(auto, unfolding(crate::specs::Basics::basic_rows, crate::specs::Basics::basic_read))]
pub fn basic_in(alloc: Global, word: &[u8], words: Option<&[u8]>) -> Result<Basic, ReadError>
    ensures { Gives (λ x. x) result (basics.basic_read word.now (left 32 (option_copied words.entry))) }
{
    if is_word(word, b"write") {
        return write(alloc, words);
    }
    if is_word(word, b"collect") {
        return collect(words);
    }
    if is_word(word, b"pull") {
        let (group, osd) = member(words)?;
        return Ok(Basic::Pull { group, osd });
    }
    if is_word(word, b"apply") {
        let (group, osd) = member(words)?;
        return Ok(Basic::Apply { group, osd });
    }
    if is_word(word, b"tell") {
        let (group, osd) = member(words)?;
        return Ok(Basic::Tell { group, osd });
    }
    if is_word(word, b"damage") {
        return damage_step(alloc, words);
    }
    scrub_in(alloc, word, words)
}
