ghost use Rattle.std.specs.Prelude.{◌≡◌, ◌++◌, ◌∷◌, [], OnOk, codes};
ghost use Rattle.std.specs.Fmt.{decimal};
ghost use Rattle.pgs_done.specs.Words.{behind};
ghost use Rattle.pgs_done.specs.Ranges as ranges;
ghost use Rattle.pgs_done.specs.Scrubs as scrubs;
ghost use Rattle.pgs_done.specs.declared.close_answer.CloseAnswer.TheVariants as closes;

use super::ranges::push_range;
use super::words::{push_count, push_number, push_two, push_where, push_word};
use crate::begin_answer::BeginAnswer;
use crate::close_answer::CloseAnswer;
use crate::open_answer::OpenAnswer;
use crate::range::Range;
use std::alloc::{AllocError, Global};

/// Appends a word and the name of a scrub.
#[tactic(auto, using(crate::proofs::Behind::joins))]
pub fn push_scrub(
    alloc: Global,
    word: &[u8],
    group: u32,
    serial: u64,
    out: &mut Vec<u8>,
) -> Result<(), AllocError>
    ensures { OnOk result (out.new.items ≡ out.old.items ++ behind (word.now ∷ scrubs.scrub_word group serial ∷ [])) }
{
    push_word(word, out)?;
    let text = format!(in alloc; " {group}.{serial}")?;
    out.extend_from_slice(text.as_bytes())
}

/// Appends what a `begin` of a group was answered.
pub fn push_begun(
    alloc: Global,
    group: u32,
    answer: BeginAnswer,
    out: &mut Vec<u8>,
) -> Result<(), AllocError>
    ensures { OnOk result (out.new.items ≡ out.old.items ++ behind (scrubs.begin_words group answer)) }
{
    match answer {
        BeginAnswer::Began { serial } => push_scrub(alloc, b"began", group, serial, out),
        BeginAnswer::Busy { serial } => push_scrub(alloc, b"busy", group, serial, out),
    }
}

#[tactic(auto, using(crate::proofs::Behind::joins))]
fn push_limits(
    alloc: Global,
    version: u64,
    limit: u32,
    firm: bool,
    out: &mut Vec<u8>,
) -> Result<(), AllocError>
    ensures { OnOk result (out.new.items ≡ out.old.items ++ behind (scrubs.opened_words version limit firm)) }
{
    push_count(alloc, b"version", version, out)?;
    push_count(alloc, b"limit", u64::from(limit), out)?;
    push_where(firm, b"firm", out)
}

#[tactic(auto, using(crate::proofs::Behind::spreads))]
fn push_covered(
    alloc: Global,
    chunk: u64,
    range: &Range,
    out: &mut Vec<u8>,
) -> Result<(), AllocError>
    ensures { OnOk result (out.new.items ≡ out.old.items ++ behind (codes "opened" ∷ decimal chunk ∷ ranges.range_words range.now)) }
{
    push_count(alloc, b"opened", chunk, out)?;
    push_range(range, out)
}

/// Appends what an `open` was answered.
#[tactic(auto, using(crate::proofs::Behind::spreads))]
pub fn push_opened(alloc: Global, answer: &OpenAnswer, out: &mut Vec<u8>) -> Result<(), AllocError>
    ensures { OnOk result (out.new.items ≡ out.old.items ++ behind (scrubs.open_words answer.now)) }
{
    match answer {
        OpenAnswer::Opened {
            chunk,
            range,
            version,
            limit,
            firm,
        } => {
            push_covered(alloc, *chunk, range, out)?;
            push_limits(alloc, *version, *limit, *firm, out)
        }
        OpenAnswer::Already { chunk } => push_count(alloc, b"already", *chunk, out),
        OpenAnswer::NoScrub => push_word(b"no-scrub", out),
        OpenAnswer::Reserving { osd } => push_count(alloc, b"reserving", u64::from(*osd), out),
        OpenAnswer::DeviceFault { osd, count } => push_two(
            alloc,
            b"device-fault",
            u64::from(*osd),
            *count,
            out,
        ),
    }
}

#[tactic(auto, using(crate::proofs::Behind::joins))]
fn push_counts(
    alloc: Global,
    chunk: u64,
    findings: u64,
    snaps: u64,
    completes: bool,
    out: &mut Vec<u8>,
) -> Result<(), AllocError>
    ensures { OnOk result (out.new.items ≡ out.old.items ++ behind (scrubs.closed_words chunk findings snaps completes)) }
{
    push_count(alloc, b"closed", chunk, out)?;
    push_count(alloc, b"findings", findings, out)?;
    push_count(alloc, b"snaps", snaps, out)?;
    push_where(completes, b"completes", out)
}

#[tactic(auto, using(crate::proofs::Behind::joins))]
fn push_preempted(
    alloc: Global,
    client: u32,
    serial: u32,
    out: &mut Vec<u8>,
) -> Result<(), AllocError>
    ensures { OnOk result (out.new.items ≡ out.old.items ++ behind (scrubs.close_words (closes.Preempted client serial))) }
{
    push_count(alloc, b"preempted", u64::from(client), out)?;
    push_number(alloc, u64::from(serial), out)
}

// Appends a word and two epochs.
fn push_epochs(
    alloc: Global,
    word: &[u8],
    before: u32,
    after: u32,
    out: &mut Vec<u8>,
) -> Result<(), AllocError>
    ensures { OnOk result (out.new.items ≡ out.old.items ++ behind (word.now ∷ decimal before ∷ decimal after ∷ [])) }
{
    push_two(alloc, word, u64::from(before), u64::from(after), out)
}

/// Appends what a `close` was answered.
pub fn push_closed(alloc: Global, answer: CloseAnswer, out: &mut Vec<u8>) -> Result<(), AllocError>
    ensures { OnOk result (out.new.items ≡ out.old.items ++ behind (scrubs.close_words answer)) }
{
    match answer {
        CloseAnswer::Closed {
            chunk,
            findings,
            snaps,
            completes,
        } => push_counts(alloc, chunk, findings, snaps, completes, out),
        CloseAnswer::NotYet { osd } => push_count(alloc, b"not-yet", u64::from(osd), out),
        CloseAnswer::ClosedBefore { chunk } => push_count(alloc, b"closed-before", chunk, out),
        CloseAnswer::NoChunk => push_word(b"no-chunk", out),
        CloseAnswer::Preempted { client, serial } => push_preempted(alloc, client, serial, out),
        CloseAnswer::IntervalChanged { old, new } => push_epochs(
            alloc,
            b"interval-changed",
            old,
            new,
            out,
        ),
        CloseAnswer::DeviceFault { osd, count } => push_two(
            alloc,
            b"device-fault",
            u64::from(osd),
            count,
            out,
        ),
    }
}
