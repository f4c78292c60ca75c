ghost use Rattle.std.specs.Prelude.{◌≡◌, ◌++◌, ◌∷◌, [], OnOk, codes};
ghost use Rattle.std.specs.Fmt.{decimal};
ghost use Rattle.pgs_done.specs.Plans as plans;
ghost use Rattle.pgs_done.specs.Scrubs as scrubs;
ghost use Rattle.pgs_done.specs.Words.{behind};
ghost use Rattle.pgs_done.specs.declared.claim_answer.ClaimAnswer.TheVariants as claims;
ghost use Rattle.pgs_done.specs.declared.interval_answer.IntervalAnswer.TheVariants as intervals;
ghost use Rattle.pgs_done.specs.declared.job_answer.JobAnswer.TheVariants as jobs;
ghost use Rattle.pgs_done.specs.declared.pick_answer.PickAnswer.TheVariants as picks;

use super::scrubs::push_scrub;
use super::steps::push_kind;
use super::words::{push_count, push_number, push_word};
use crate::claim_answer::ClaimAnswer;
use crate::holder::Holder;
use crate::interval_answer::IntervalAnswer;
use crate::job_answer::JobAnswer;
use crate::pick_answer::PickAnswer;
use crate::release_answer::ReleaseAnswer;
use crate::unjob_answer::UnjobAnswer;
use pgs_lines::Kind;
use std::alloc::{AllocError, Global};

// ---- who acts

// Appends the scrub that ends, if one does.
fn push_ended(
    alloc: Global,
    group: u32,
    ends: Option<u64>,
    out: &mut Vec<u8>,
) -> Result<(), AllocError>
    ensures { OnOk result (out.new.items ≡ out.old.items ++ behind (plans.ends_words group ends)) }
{
    match ends {
        Some(serial) => push_scrub(alloc, b"ends", group, serial, out),
        None => Ok(()),
    }
}

#[tactic(auto, using(crate::proofs::Behind::joins))]
fn push_changed(
    alloc: Global,
    group: u32,
    epoch: u32,
    ends: Option<u64>,
    out: &mut Vec<u8>,
) -> Result<(), AllocError>
    ensures { OnOk result (out.new.items ≡ out.old.items ++ behind (plans.interval_words group (intervals.Changed epoch ends))) }
{
    push_count(alloc, b"interval", u64::from(epoch), out)?;
    push_ended(alloc, group, ends, out)
}

#[tactic(auto, using(crate::proofs::Behind::joins))]
fn push_behind(
    alloc: Global,
    osd: u32,
    told: u64,
    length: u64,
    out: &mut Vec<u8>,
) -> Result<(), AllocError>
    ensures { OnOk result (out.new.items ≡ out.old.items ++ behind (codes "not-caught-up" ∷ decimal osd ∷ decimal told ∷ decimal length ∷ [])) }
{
    push_count(alloc, b"not-caught-up", u64::from(osd), out)?;
    push_number(alloc, told, out)?;
    push_number(alloc, length, out)
}

/// Appends what an `interval` of a group was answered.
pub fn push_interval_answer(
    alloc: Global,
    group: u32,
    answer: IntervalAnswer,
    out: &mut Vec<u8>,
) -> Result<(), AllocError>
    ensures { OnOk result (out.new.items ≡ out.old.items ++ behind (plans.interval_words group answer)) }
{
    match answer {
        IntervalAnswer::Changed { epoch, ends } => push_changed(alloc, group, epoch, ends, out),
        IntervalAnswer::NotCaughtUp { osd, told, length } => {
            push_behind(alloc, osd, told, length, out)
        }
        IntervalAnswer::LastEpoch { epoch } => {
            push_count(alloc, b"last-epoch", u64::from(epoch), out)
        }
    }
}

// ---- who holds slots

// Appends a mark and the name of a scrub.
#[tactic(auto, using(crate::proofs::Behind::joins))]
fn push_marked(alloc: Global, mark: u8, holder: Holder, out: &mut Vec<u8>) -> Result<(), AllocError>
    ensures { OnOk result (out.new.items ≡ out.old.items ++ mark ∷ scrubs.scrub_word holder.group holder.serial) }
{
    out.push(mark)?;
    let text = format!(in alloc; "{}.{}", holder.group, holder.serial)?;
    out.extend_from_slice(text.as_bytes())
}

// Appends scrubs, a space before the first and a comma before each other.
fn push_names(alloc: Global, holders: &[Holder], out: &mut Vec<u8>) -> Result<(), AllocError>
    ensures { OnOk result (out.new.items ≡ out.old.items ++ plans.holders_marked 32 holders.now) }
{
    let mut mark = b' ';
    for holder in holders {
        push_marked(alloc, mark, *holder, out)?;
        mark = b',';
    }
    Ok(())
}

#[tactic(auto, using(crate::proofs::Held::holders_printed))]
fn push_holders(alloc: Global, holders: &[Holder], out: &mut Vec<u8>) -> Result<(), AllocError>
    ensures { OnOk result (out.new.items ≡ out.old.items ++ behind (plans.holder_words holders.now)) }
{
    push_names(alloc, holders, out)
}

#[tactic(auto, using(crate::proofs::Behind::joins))]
fn push_denied(
    alloc: Global,
    osd: u32,
    holders: &[Holder],
    out: &mut Vec<u8>,
) -> Result<(), AllocError>
    ensures { OnOk result (out.new.items ≡ out.old.items ++ behind (plans.claim_words (claims.Denied osd holders.now))) }
{
    push_count(alloc, b"denied", u64::from(osd), out)?;
    push_holders(alloc, holders, out)
}

// Appends a word, an OSD and one of its slots.
#[tactic(auto, using(crate::proofs::Behind::joins))]
fn push_slot(
    alloc: Global,
    word: &[u8],
    osd: u32,
    slot: u8,
    out: &mut Vec<u8>,
) -> Result<(), AllocError>
    ensures { OnOk result (out.new.items ≡ out.old.items ++ behind (word.now ∷ decimal osd ∷ decimal slot ∷ [])) }
{
    push_count(alloc, word, u64::from(osd), out)?;
    push_number(alloc, u64::from(slot), out)
}

/// Appends what a `claim` was answered.
pub fn push_claimed(
    alloc: Global,
    answer: &ClaimAnswer,
    out: &mut Vec<u8>,
) -> Result<(), AllocError>
    ensures { OnOk result (out.new.items ≡ out.old.items ++ behind (plans.claim_words answer.now)) }
{
    match answer {
        ClaimAnswer::Claimed { osd, slot } => push_slot(alloc, b"claimed", *osd, *slot, out),
        ClaimAnswer::Reserved { osd, slot } => push_slot(alloc, b"reserved", *osd, *slot, out),
        ClaimAnswer::Denied { osd, holders } => push_denied(alloc, *osd, holders.as_slice(), out),
        ClaimAnswer::NoClaim => push_word(b"no-claim", out),
    }
}

/// Appends what a `release` of a group was answered.
pub fn push_released(
    alloc: Global,
    group: u32,
    answer: ReleaseAnswer,
    out: &mut Vec<u8>,
) -> Result<(), AllocError>
    ensures { OnOk result (out.new.items ≡ out.old.items ++ behind (plans.release_words group answer)) }
{
    match answer {
        ReleaseAnswer::Released { serial } => push_scrub(alloc, b"released", group, serial, out),
        ReleaseAnswer::NotHeld => push_word(b"not-held", out),
    }
}

// ---- which scrubs wait

#[tactic(auto, using(crate::proofs::Behind::joins))]
fn push_already(
    alloc: Global,
    kind: Kind,
    rank: u8,
    moment: u32,
    out: &mut Vec<u8>,
) -> Result<(), AllocError>
    ensures { OnOk result (out.new.items ≡ out.old.items ++ behind (plans.job_words (jobs.Already kind rank moment))) }
{
    push_word(b"already", out)?;
    push_kind(kind, out)?;
    push_number(alloc, u64::from(rank), out)?;
    push_number(alloc, u64::from(moment), out)
}

/// Appends what a `job` was answered.
pub fn push_queued(alloc: Global, answer: JobAnswer, out: &mut Vec<u8>) -> Result<(), AllocError>
    ensures { OnOk result (out.new.items ≡ out.old.items ++ behind (plans.job_words answer)) }
{
    match answer {
        JobAnswer::Queued => push_word(b"queued", out),
        JobAnswer::Already { kind, rank, moment } => push_already(alloc, kind, rank, moment, out),
    }
}

/// Appends what an `unjob` was answered.
pub fn push_dropped(answer: UnjobAnswer, out: &mut Vec<u8>) -> Result<(), AllocError>
    ensures { OnOk result (out.new.items ≡ out.old.items ++ behind (plans.unjob_words answer)) }
{
    match answer {
        UnjobAnswer::Dropped => push_word(b"dropped", out),
        UnjobAnswer::None => push_word(b"none", out),
    }
}

#[tactic(auto, using(crate::proofs::Behind::joins))]
fn push_job_picked(
    alloc: Global,
    group: u32,
    kind: Kind,
    out: &mut Vec<u8>,
) -> Result<(), AllocError>
    ensures { OnOk result (out.new.items ≡ out.old.items ++ behind (plans.pick_words (picks.Picked group kind))) }
{
    push_count(alloc, b"picked", u64::from(group), out)?;
    push_kind(kind, out)
}

/// Appends what a `pick` was answered.
pub fn push_picked(alloc: Global, answer: PickAnswer, out: &mut Vec<u8>) -> Result<(), AllocError>
    ensures { OnOk result (out.new.items ≡ out.old.items ++ behind (plans.pick_words answer)) }
{
    match answer {
        PickAnswer::Picked { group, kind } => push_job_picked(alloc, group, kind, out),
        PickAnswer::None => push_word(b"none", out),
    }
}
