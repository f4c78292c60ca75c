ghost use Rattle.std.specs.Prelude.{◌≡◌, ◌++◌, ◌∷◌, [], OnOk};
ghost use Rattle.pgs_done.specs.Scans as scans;
ghost use Rattle.pgs_done.specs.Words.{behind};
ghost use Rattle.pgs_done.specs.declared.scan_answer.ScanAnswer.TheVariants as answers;
ghost use Rattle.pgs_done.specs.declared.take_answer.TakeAnswer.TheVariants as takes;

use super::objects::push_object;
use super::words::{push_count, push_number, push_word};
use crate::mark::Mark;
use crate::position::Position;
use crate::scan_answer::ScanAnswer;
use crate::take_answer::TakeAnswer;
use std::alloc::{AllocError, Global};

// Appends the word of a head, or of a clone by its number.
fn push_snap(alloc: Global, snap: Option<u64>, out: &mut Vec<u8>) -> Result<(), AllocError>
    ensures { OnOk result (out.new.items ≡ out.old.items ++ behind (scans.snap_word snap ∷ [])) }
{
    match snap {
        Some(snap) => push_number(alloc, snap, out),
        None => push_word(b"head", out),
    }
}

// Appends a word and the words SPACE KEY NAME SNAP.
#[tactic(auto, using(crate::proofs::Behind::spreads))]
fn push_position(
    alloc: Global,
    word: &[u8],
    position: &Position,
    out: &mut Vec<u8>,
) -> Result<(), AllocError>
    ensures { OnOk result (out.new.items ≡ out.old.items ++ behind (word.now ∷ scans.position_words position.now)) }
{
    push_word(word, out)?;
    push_object(&position.object, out)?;
    push_snap(alloc, position.snap, out)
}

// Appends what failed, if anything did.
#[tactic(auto, using(crate::proofs::Behind::joins))]
fn push_mark(mark: Mark, out: &mut Vec<u8>) -> Result<(), AllocError>
    ensures { OnOk result (out.new.items ≡ out.old.items ++ behind (scans.mark_words mark)) }
{
    match mark {
        Mark::Fine => Ok(()),
        Mark::StatError => push_word(b"stat-error", out),
        Mark::ReadError => push_word(b"read-error", out),
    }
}

#[tactic(auto, using(crate::proofs::Behind::spreads))]
fn push_passed(
    alloc: Global,
    position: &Position,
    mark: Mark,
    out: &mut Vec<u8>,
) -> Result<(), AllocError>
    ensures { OnOk result (out.new.items ≡ out.old.items ++ behind (scans.scan_words (answers.Passed position.now mark))) }
{
    push_position(alloc, b"passed", position, out)?;
    push_mark(mark, out)
}

#[tactic(auto, using(crate::proofs::Behind::joins))]
fn push_needed(
    alloc: Global,
    applied: u64,
    needed: u64,
    out: &mut Vec<u8>,
) -> Result<(), AllocError>
    ensures { OnOk result (out.new.items ≡ out.old.items ++ behind (scans.scan_words (answers.NotYet applied needed))) }
{
    push_count(alloc, b"not-yet", applied, out)?;
    push_number(alloc, needed, out)
}

/// Appends what a `scan` was answered.
pub fn push_scanned(alloc: Global, answer: &ScanAnswer, out: &mut Vec<u8>) -> Result<(), AllocError>
    ensures { OnOk result (out.new.items ≡ out.old.items ++ behind (scans.scan_words answer.now)) }
{
    match answer {
        ScanAnswer::Idle => push_word(b"idle", out),
        ScanAnswer::NotYet { applied, needed } => push_needed(alloc, *applied, *needed, out),
        ScanAnswer::Found { position } => push_position(alloc, b"found", position, out),
        ScanAnswer::More => push_word(b"more", out),
        ScanAnswer::Passed { position, mark } => push_passed(alloc, position, *mark, out),
        ScanAnswer::Done => push_word(b"done", out),
        ScanAnswer::ListFault { count } => push_count(alloc, b"list-fault", *count, out),
    }
}

// Appends a number, or `none`.
fn push_number_or_none(
    alloc: Global,
    number: Option<u64>,
    out: &mut Vec<u8>,
) -> Result<(), AllocError>
    ensures { OnOk result (out.new.items ≡ out.old.items ++ behind (scans.number_or_none number ∷ [])) }
{
    match number {
        Some(number) => push_number(alloc, number, out),
        None => push_word(b"none", out),
    }
}

#[tactic(auto, using(crate::proofs::Behind::joins))]
fn push_stale(alloc: Global, chunk: Option<u64>, out: &mut Vec<u8>) -> Result<(), AllocError>
    ensures { OnOk result (out.new.items ≡ out.old.items ++ behind (scans.take_words (takes.Stale chunk))) }
{
    push_word(b"stale", out)?;
    push_number_or_none(alloc, chunk, out)
}

#[tactic(auto, using(crate::proofs::Behind::joins))]
fn push_map(alloc: Global, applied: u64, place: u64, out: &mut Vec<u8>) -> Result<(), AllocError>
    ensures { OnOk result (out.new.items ≡ out.old.items ++ behind (scans.take_words (takes.Taken applied place))) }
{
    push_count(alloc, b"taken", applied, out)?;
    push_number(alloc, place, out)
}

/// Appends what a `take` was answered.
pub fn push_taken(alloc: Global, answer: TakeAnswer, out: &mut Vec<u8>) -> Result<(), AllocError>
    ensures { OnOk result (out.new.items ≡ out.old.items ++ behind (scans.take_words answer)) }
{
    match answer {
        TakeAnswer::Taken { applied, place } => push_map(alloc, applied, place, out),
        TakeAnswer::Stale { chunk } => push_stale(alloc, chunk, out),
        TakeAnswer::NotDone => push_word(b"not-done", out),
        TakeAnswer::Fault { count } => push_count(alloc, b"fault", count, out),
    }
}
