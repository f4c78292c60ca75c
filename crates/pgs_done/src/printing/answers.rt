ghost use Rattle.std.specs.Prelude.{◌≡◌, ◌++◌, ◌∷◌, [], OnOk, codes};
ghost use Rattle.pgs_done.specs.Answers as answers;
ghost use Rattle.pgs_done.specs.Ranges.{range_words};
ghost use Rattle.pgs_done.specs.Words.{version_word};
ghost use Rattle.pgs_done.specs.declared.apply_answer.ApplyAnswer.TheVariants as applies;
ghost use Rattle.pgs_done.specs.declared.collect_answer.CollectAnswer.TheVariants as collects;
ghost use Rattle.pgs_done.specs.declared.write_answer.WriteAnswer.TheVariants as writes;
ghost use Rattle.pgs_done.specs.Words.{behind};

use super::ranges::push_range;
use super::words::{push_count, push_number, push_number_where, push_version, push_word};
use crate::apply_answer::ApplyAnswer;
use crate::collect_answer::CollectAnswer;
use crate::range::Range;
use crate::write_answer::WriteAnswer;
use pgs_request::{Declined, Refusal, Version};
use std::alloc::{AllocError, Global};

// Appends a word and a version.
#[tactic(auto, using(crate::proofs::Behind::joins))]
fn push_at(
    alloc: Global,
    word: &[u8],
    version: Version,
    out: &mut Vec<u8>,
) -> Result<(), AllocError>
    ensures { OnOk result (out.new.items ≡ out.old.items ++ behind (word.now ∷ version_word version ∷ [])) }
{
    push_word(word, out)?;
    push_version(alloc, version, out)
}

fn push_refusal(alloc: Global, refusal: Refusal, out: &mut Vec<u8>) -> Result<(), AllocError>
    ensures { OnOk result (out.new.items ≡ out.old.items ++ behind (answers.refusal_words refusal)) }
{
    match refusal {
        Refusal::NoSuchObject => push_word(b"no-such-object", out),
        Refusal::ObjectTooLarge { size } => push_count(alloc, b"object-too-large", size, out),
        Refusal::StoreFull { bytes } => push_count(alloc, b"store-full", bytes, out),
        Refusal::LogFull { bytes } => push_count(alloc, b"log-full", bytes, out),
    }
}

fn push_declined(alloc: Global, declined: Declined, out: &mut Vec<u8>) -> Result<(), AllocError>
    ensures { OnOk result (out.new.items ≡ out.old.items ++ behind (answers.declined_words declined)) }
{
    match declined {
        Declined::Repeat { version } => push_at(alloc, b"repeat", version, out),
        Declined::BadSnapContext { place } => push_count(alloc, b"bad-snap-context", place, out),
        Declined::Refused { refusal } => push_refusal(alloc, refusal, out),
    }
}

#[tactic(auto, using(crate::proofs::Behind::joins))]
fn push_parked(range: &Range, out: &mut Vec<u8>) -> Result<(), AllocError>
    ensures { OnOk result (out.new.items ≡ out.old.items ++ behind (codes "parked" ∷ range_words range.now)) }
{
    push_word(b"parked", out)?;
    push_range(range, out)
}

#[tactic(auto, using(crate::proofs::Behind::joins))]
fn push_accepted(
    alloc: Global,
    version: Version,
    preempts: Option<u64>,
    out: &mut Vec<u8>,
) -> Result<(), AllocError>
    ensures { OnOk result (out.new.items ≡ out.old.items ++ behind (answers.write_words (writes.Accepted version preempts))) }
{
    push_at(alloc, b"accepted", version, out)?;
    push_number_where(alloc, b"preempts", preempts, out)
}

/// Appends what a write was answered.
pub fn push_written(
    alloc: Global,
    answer: &WriteAnswer,
    out: &mut Vec<u8>,
) -> Result<(), AllocError>
    ensures { OnOk result (out.new.items ≡ out.old.items ++ behind (answers.write_words answer.now)) }
{
    match answer {
        WriteAnswer::Declined { declined } => push_declined(alloc, *declined, out),
        WriteAnswer::Parked { range } => push_parked(range, out),
        WriteAnswer::QueueFull { count } => push_count(alloc, b"queue-full", *count, out),
        WriteAnswer::Accepted { version, preempts } => {
            push_accepted(alloc, *version, *preempts, out)
        }
    }
}

#[tactic(auto, using(crate::proofs::Behind::joins))]
fn push_refused(alloc: Global, refusal: Refusal, out: &mut Vec<u8>) -> Result<(), AllocError>
    ensures { OnOk result (out.new.items ≡ out.old.items ++ behind (answers.collect_words (collects.Refused refusal))) }
{
    push_word(b"refused", out)?;
    push_refusal(alloc, refusal, out)
}

#[tactic(auto, using(crate::proofs::Behind::joins))]
fn push_not_yet(alloc: Global, osd: u32, told: u64, out: &mut Vec<u8>) -> Result<(), AllocError>
    ensures { OnOk result (out.new.items ≡ out.old.items ++ behind (answers.collect_words (collects.NotYet osd told))) }
{
    push_count(alloc, b"not-yet", u64::from(osd), out)?;
    push_number(alloc, told, out)
}

/// Appends what a `collect` was answered.
pub fn push_collected(
    alloc: Global,
    answer: CollectAnswer,
    out: &mut Vec<u8>,
) -> Result<(), AllocError>
    ensures { OnOk result (out.new.items ≡ out.old.items ++ behind (answers.collect_words answer)) }
{
    match answer {
        CollectAnswer::StillParked { chunk } => push_count(alloc, b"still-parked", chunk, out),
        CollectAnswer::Refused { refusal } => push_refused(alloc, refusal, out),
        CollectAnswer::Unknown => push_word(b"unknown", out),
        CollectAnswer::NotYet { osd, told } => push_not_yet(alloc, osd, told, out),
        CollectAnswer::Acked { version } => push_at(alloc, b"acked", version, out),
    }
}

// Appends the number of an item, with what it dropped.
#[tactic(auto, using(crate::proofs::Behind::joins))]
fn push_item(
    alloc: Global,
    number: u64,
    drops: Option<u64>,
    out: &mut Vec<u8>,
) -> Result<(), AllocError>
    ensures { OnOk result (out.new.items ≡ out.old.items ++ behind (answers.apply_words (applies.Applied number drops))) }
{
    push_count(alloc, b"applied", number, out)?;
    push_number_where(alloc, b"drops", drops, out)
}

/// Appends what an `apply` was answered.
pub fn push_applied(alloc: Global, answer: ApplyAnswer, out: &mut Vec<u8>) -> Result<(), AllocError>
    ensures { OnOk result (out.new.items ≡ out.old.items ++ behind (answers.apply_words answer)) }
{
    match answer {
        ApplyAnswer::Applied { number, drops } => push_item(alloc, number, drops, out),
        ApplyAnswer::NotYet { applied } => push_count(alloc, b"not-yet", applied, out),
        ApplyAnswer::DeviceFault { count } => push_count(alloc, b"device-fault", count, out),
    }
}

/// Appends what a `pull` was answered.
#[tactic(auto, using(crate::proofs::Behind::joins))]
pub fn push_pulled(
    alloc: Global,
    from: u64,
    to: u64,
    asked: Option<u64>,
    out: &mut Vec<u8>,
) -> Result<(), AllocError>
    ensures { OnOk result (out.new.items ≡ out.old.items ++ behind (answers.pull_words from to asked)) }
{
    push_count(alloc, b"pulled", from, out)?;
    push_number(alloc, to, out)?;
    push_number_where(alloc, b"asked", asked, out)
}
