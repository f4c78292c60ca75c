ghost use Rattle.std.specs.Prelude.{◌≡◌, ◌++◌, OnOk};
ghost use Rattle.pgs_done.specs.Done as done_lines;
ghost use Rattle.pgs_done.specs.Words.{behind, begins};

use super::answers::{push_applied, push_collected, push_pulled, push_written};
use super::damages::push_damaged;
use super::plans::{
    push_claimed, push_dropped, push_interval_answer, push_picked, push_queued, push_released,
};
use super::scans::{push_scanned, push_taken};
use super::scrubs::{push_begun, push_closed, push_opened};
use super::steps::{
    push_admit, push_begin, push_collect, push_damage_step, push_group, push_interval, push_job,
    push_member, push_write,
};
use super::words::{push_count, push_word};
use crate::done::Done;
use std::alloc::{AllocError, Global};

// Appends the words of what was done.
fn push_step(alloc: Global, done: &Done, out: &mut Vec<u8>) -> Result<(), AllocError>
    ensures { OnOk result (out.new.items ≡ out.old.items ++ begins (done_lines.step_words done.now)) }
{
    match done {
        Done::Write {
            client,
            serial,
            object,
            context,
            op,
            ..
        } => push_write(alloc, *client, *serial, object, context, op, out),
        Done::Admit { client, serial, .. } => push_admit(alloc, *client, *serial, out),
        Done::Collect {
            group,
            client,
            serial,
            ..
        } => push_collect(alloc, *group, *client, *serial, out),
        Done::Pull { group, osd, .. } => push_member(alloc, b"pull", *group, *osd, out),
        Done::Apply { group, osd, .. } => push_member(alloc, b"apply", *group, *osd, out),
        Done::Tell { group, osd, .. } => push_member(alloc, b"tell", *group, *osd, out),
        Done::Damage {
            group,
            osd,
            object,
            snap,
            damage,
            ..
        } => push_damage_step(alloc, *group, *osd, object, *snap, damage, out),
        Done::Begin { group, kind, .. } => push_begin(alloc, *group, *kind, out),
        Done::Open { group, .. } => push_group(alloc, b"open", *group, out),
        Done::Scan { group, osd, .. } => push_member(alloc, b"scan", *group, *osd, out),
        Done::Take { group, osd, .. } => push_member(alloc, b"take", *group, *osd, out),
        Done::Close { group, .. } => push_group(alloc, b"close", *group, out),
        Done::Interval { group, acting, .. } => {
            push_interval(alloc, *group, acting.as_slice(), out)
        }
        Done::Claim { group, .. } => push_group(alloc, b"claim", *group, out),
        Done::Release { group, osd, .. } => push_member(alloc, b"release", *group, *osd, out),
        Done::Job {
            group,
            kind,
            rank,
            moment,
            ..
        } => push_job(alloc, *group, *kind, *rank, *moment, out),
        Done::Unjob { group, .. } => push_group(alloc, b"unjob", *group, out),
        Done::Pick { moment, .. } => push_group(alloc, b"pick", *moment, out),
        Done::Listed { text } => out.extend_from_slice(text.as_slice()),
    }
}

// Appends the words of the answer.
fn push_answer(alloc: Global, done: &Done, out: &mut Vec<u8>) -> Result<(), AllocError>
    ensures { OnOk result (out.new.items ≡ out.old.items ++ behind (done_lines.answer_words done.now)) }
{
    match done {
        Done::Write { answer, .. } => push_written(alloc, answer, out),
        Done::Admit { answer, .. } => push_written(alloc, answer, out),
        Done::Collect { answer, .. } => push_collected(alloc, *answer, out),
        Done::Pull {
            from,
            to,
            asked,
            ..
        } => push_pulled(alloc, *from, *to, *asked, out),
        Done::Apply { answer, .. } => push_applied(alloc, *answer, out),
        Done::Tell { applied, .. } => push_count(alloc, b"told", *applied, out),
        Done::Damage { answer, .. } => push_damaged(alloc, *answer, out),
        Done::Begin { group, answer, .. } => push_begun(alloc, *group, *answer, out),
        Done::Open { answer, .. } => push_opened(alloc, answer, out),
        Done::Scan { answer, .. } => push_scanned(alloc, answer, out),
        Done::Take { answer, .. } => push_taken(alloc, *answer, out),
        Done::Close { answer, .. } => push_closed(alloc, *answer, out),
        Done::Interval { group, answer, .. } => push_interval_answer(alloc, *group, *answer, out),
        Done::Claim { answer, .. } => push_claimed(alloc, answer, out),
        Done::Release { group, answer, .. } => push_released(alloc, *group, *answer, out),
        Done::Job { answer, .. } => push_queued(alloc, *answer, out),
        Done::Unjob { answer, .. } => push_dropped(*answer, out),
        Done::Pick { answer, .. } => push_picked(alloc, *answer, out),
        Done::Listed { .. } => Ok(()),
    }
}

// Appends a colon and the words of the answer, but for a list, which has none.
fn push_answer_if(alloc: Global, done: &Done, out: &mut Vec<u8>) -> Result<(), AllocError>
    ensures { OnOk result (out.new.items ≡ out.old.items ++ behind (done_lines.answer_part done.now)) }
{
    if done.is_listed() {
        return Ok(());
    }
    push_word(b":", out)?;
    push_answer(alloc, done, out)
}

/// Appends the line of what was done. The words of an object are printed as they stand in it, but for a key that is equal
/// to the name: a dash stands for it, as for none.
#[tactic(auto, using(crate::proofs::Behind::printed))]
pub fn print(alloc: Global, done: &Done, out: &mut Vec<u8>) -> Result<(), AllocError>
    ensures { OnOk result (out.new.items ≡ out.old.items ++ done_lines.done_line done.now) }
{
    push_step(alloc, done, out)?;
    push_answer_if(alloc, done, out)?;
    out.push(b'\n')?;
    Ok(())
}
