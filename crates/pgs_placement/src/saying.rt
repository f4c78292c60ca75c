//! How lines say what a group and a shard answer.
ghost use Rattle.std.specs.Prelude.{◌≡◌, IfOk};
ghost use Rattle.pgs_done.specs.declared.open_answer.OpenAnswer.TheVariants as line_opens;
ghost use Rattle.pgs_placement.specs.Said as defined;

use pgs_bytes::Bytes;
use pgs_done::Position;
use pgs_group::CloseTold;
use pgs_history::{
    BeginAnswer, Chunk, CollectAnswer, FaultAnswer, IntervalAnswer, OpenAnswer, ReserveAnswer,
    TakeAnswer, WriteAnswer,
};
use pgs_lines::Object;
use pgs_name::{Family, HEAD, ObjectId};
use pgs_range::{Bound, FamilyRange};
use pgs_scan::Mark;
use pgs_shard::ScanAnswer;
use pgs_shard_history::DamageAnswer;
use pgs_shards::ApplyAnswer;
use pgs_slots::Holder;
use sqlite_items::Items;
use std::alloc::{AllocError, Global};

fn object_of(alloc: Global, family: &Family) -> Result<Object, AllocError>
    ensures { IfOk result (λ o. o ≡ defined.object_of family.now) }
{
    let space = Bytes::from_slice(alloc, family.space())?;
    let key = Bytes::from_slice(alloc, family.kept_key())?;
    let name = Bytes::from_slice(alloc, family.name())?;
    Ok(Object { space, key, name })
}

fn snap_said(snap: u64) -> Option<u64>
    ensures { result ≡ defined.snap_said snap }
{
    if snap == HEAD { None } else { Some(snap) }
}

fn position_said(alloc: Global, id: &ObjectId) -> Result<Position, AllocError>
    ensures { IfOk result (λ p. p ≡ defined.position_said id.now) }
{
    let object = object_of(alloc, &id.family)?;
    let snap = snap_said(id.snap);
    Ok(Position { object, snap })
}

fn bound_said(alloc: Global, bound: &Bound) -> Result<pgs_done::Bound, AllocError>
    ensures { IfOk result (λ b. b ≡ defined.bound_said bound.now) }
{
    match bound {
        Bound::Min => Ok(pgs_done::Bound::Min),
        Bound::At { family } => {
            let object = object_of(alloc, family)?;
            Ok(pgs_done::Bound::At { object })
        }
        Bound::Max => Ok(pgs_done::Bound::Max),
    }
}

fn range_said(alloc: Global, range: &FamilyRange) -> Result<pgs_done::Range, AllocError>
    ensures { IfOk result (λ r. r ≡ defined.range_said range.now) }
{
    let from = bound_said(alloc, &range.from)?;
    let to = bound_said(alloc, &range.to)?;
    Ok(pgs_done::Range { from, to })
}

fn mark_said(mark: Mark) -> pgs_done::Mark
    ensures { result ≡ defined.mark_said mark }
{
    match mark {
        Mark::Fine => pgs_done::Mark::Fine,
        Mark::StatError => pgs_done::Mark::StatError,
        Mark::ReadError => pgs_done::Mark::ReadError,
    }
}

pub fn write_said(alloc: Global, answer: &WriteAnswer) -> Result<pgs_done::WriteAnswer, AllocError>
    ensures { IfOk result (λ a. a ≡ defined.write_said answer.now) }
{
    match answer {
        WriteAnswer::Declined { declined } => Ok(pgs_done::WriteAnswer::Declined {
            declined: *declined,
        }),
        WriteAnswer::Parked { range } => {
            let range = range_said(alloc, range)?;
            Ok(pgs_done::WriteAnswer::Parked { range })
        }
        WriteAnswer::QueueFull { count } => {
            Ok(pgs_done::WriteAnswer::QueueFull { count: *count })
        }
        WriteAnswer::Accepted { version, preempts } => Ok(pgs_done::WriteAnswer::Accepted {
            version: *version,
            preempts: *preempts,
        }),
    }
}

pub fn collect_said(answer: CollectAnswer) -> pgs_done::CollectAnswer
    ensures { result ≡ defined.collect_said answer }
{
    match answer {
        CollectAnswer::StillParked { chunk } => pgs_done::CollectAnswer::StillParked { chunk },
        CollectAnswer::Refused { refusal } => pgs_done::CollectAnswer::Refused { refusal },
        CollectAnswer::Unknown => pgs_done::CollectAnswer::Unknown,
        CollectAnswer::NotYet { osd, told } => pgs_done::CollectAnswer::NotYet { osd, told },
        CollectAnswer::Acked { version } => pgs_done::CollectAnswer::Acked { version },
    }
}

pub fn interval_said(answer: IntervalAnswer) -> pgs_done::IntervalAnswer
    ensures { result ≡ defined.interval_said answer }
{
    match answer {
        IntervalAnswer::LastEpoch { epoch } => pgs_done::IntervalAnswer::LastEpoch { epoch },
        IntervalAnswer::NotCaughtUp { osd, told, length } => {
            pgs_done::IntervalAnswer::NotCaughtUp { osd, told, length }
        }
        IntervalAnswer::Changed { epoch, ends } => {
            pgs_done::IntervalAnswer::Changed { epoch, ends }
        }
    }
}

pub fn apply_said(answer: ApplyAnswer) -> pgs_done::ApplyAnswer
    ensures { result ≡ defined.apply_said answer }
{
    match answer {
        ApplyAnswer::NotYet { applied } => pgs_done::ApplyAnswer::NotYet { applied },
        ApplyAnswer::Applied { number, drops } => pgs_done::ApplyAnswer::Applied { number, drops },
        ApplyAnswer::DeviceFault { count } => pgs_done::ApplyAnswer::DeviceFault { count },
    }
}

pub fn damage_said(answer: DamageAnswer) -> pgs_done::DamageAnswer
    ensures { result ≡ defined.damage_said answer }
{
    match answer {
        DamageAnswer::Damaged => pgs_done::DamageAnswer::Damaged,
        DamageAnswer::BeingRead => pgs_done::DamageAnswer::BeingRead,
        DamageAnswer::ShardFull { bytes } => pgs_done::DamageAnswer::ShardFull { bytes },
    }
}

pub fn scan_said(alloc: Global, answer: &ScanAnswer) -> Result<pgs_done::ScanAnswer, AllocError>
    ensures { IfOk result (λ a. a ≡ defined.scan_said answer.now) }
{
    match answer {
        ScanAnswer::Idle => Ok(pgs_done::ScanAnswer::Idle),
        ScanAnswer::NotYet { applied, needed } => Ok(pgs_done::ScanAnswer::NotYet {
            applied: *applied,
            needed: *needed,
        }),
        ScanAnswer::Found { id } => {
            let position = position_said(alloc, id)?;
            Ok(pgs_done::ScanAnswer::Found { position })
        }
        ScanAnswer::More => Ok(pgs_done::ScanAnswer::More),
        ScanAnswer::Passed { id, mark } => {
            let position = position_said(alloc, id)?;
            let mark = mark_said(*mark);
            Ok(pgs_done::ScanAnswer::Passed { position, mark })
        }
        ScanAnswer::Done => Ok(pgs_done::ScanAnswer::Done),
        ScanAnswer::ListFault { count } => Ok(pgs_done::ScanAnswer::ListFault { count: *count }),
    }
}

pub fn begin_said(answer: BeginAnswer) -> pgs_done::BeginAnswer
    ensures { result ≡ defined.begin_said answer }
{
    match answer {
        BeginAnswer::Busy { serial } => pgs_done::BeginAnswer::Busy { serial },
        BeginAnswer::Began { serial, .. } => pgs_done::BeginAnswer::Began { serial },
    }
}

fn holder_said(holder: Holder) -> pgs_done::Holder
    ensures { result ≡ defined.holder_said holder }
{
    pgs_done::Holder {
        group: holder.group,
        serial: holder.serial,
    }
}

/// How those are said who hold the slots of an OSD.
pub fn holders_said(
    alloc: Global,
    holders: &[Holder],
) -> Result<Items<pgs_done::Holder>, AllocError>
    ensures { IfOk result (λ said. said ≡ defined.holders_said holders.now) }
{
    let mut said = Items::new(alloc);
    for holder in holders {
        said.push(holder_said(*holder))?;
    }
    Ok(said)
}

/// How it is said that a scrub has claimed a slot of an OSD.
pub fn claim_said(osd: u32, slot: u8, answer: &ReserveAnswer) -> pgs_done::ClaimAnswer
    ensures { result ≡ defined.claim_said osd slot answer.now }
{
    match answer {
        ReserveAnswer::Reserved => pgs_done::ClaimAnswer::Reserved { osd, slot },
        ReserveAnswer::Over { .. }
        | ReserveAnswer::NotNext { .. }
        | ReserveAnswer::DeniedNow { .. }
        | ReserveAnswer::Reserving { .. } => pgs_done::ClaimAnswer::Claimed { osd, slot },
    }
}

fn opened_said(alloc: Global, chunk: &Chunk) -> Result<pgs_done::OpenAnswer, AllocError>
    ensures { IfOk result (λ a. a ≡ line_opens.Opened chunk.now.number (defined.range_said chunk.now.range) chunk.now.version chunk.now.limit chunk.now.firm) }
{
    let range = range_said(alloc, &chunk.range)?;
    Ok(pgs_done::OpenAnswer::Opened {
        chunk: chunk.number,
        range,
        version: chunk.version,
        limit: chunk.limit,
        firm: chunk.firm,
    })
}

pub fn open_said(alloc: Global, answer: &OpenAnswer) -> Result<pgs_done::OpenAnswer, AllocError>
    ensures { IfOk result (λ a. a ≡ defined.open_said answer.now) }
{
    match answer {
        OpenAnswer::Over { .. } => Ok(pgs_done::OpenAnswer::NoScrub),
        OpenAnswer::StillReserving { osd } => { Ok(pgs_done::OpenAnswer::Reserving { osd: *osd }) }
        OpenAnswer::Already { chunk } => Ok(pgs_done::OpenAnswer::Already { chunk: *chunk }),
        OpenAnswer::Opened { chunk } => opened_said(alloc, chunk),
    }
}

/// How the taking of a map is said that was made when so many items were applied, at a place of its OSD's history.
pub fn take_said(applied: u64, place: u64, answer: TakeAnswer) -> pgs_done::TakeAnswer
    ensures { result ≡ defined.take_said applied place answer }
{
    match answer {
        TakeAnswer::Stale { chunk_now } => pgs_done::TakeAnswer::Stale { chunk: chunk_now },
        TakeAnswer::Taken => pgs_done::TakeAnswer::Taken { applied, place },
    }
}

/// How it is said that a device failed a member's scan, which counts so many faults.
pub fn fault_said(count: u64, answer: FaultAnswer) -> pgs_done::TakeAnswer
    ensures { result ≡ defined.fault_said count answer }
{
    match answer {
        FaultAnswer::Stale { chunk_now } => pgs_done::TakeAnswer::Stale { chunk: chunk_now },
        FaultAnswer::Ended => pgs_done::TakeAnswer::Fault { count },
    }
}

pub fn close_said(chunk: u64, told: CloseTold) -> pgs_done::CloseAnswer
    ensures { result ≡ defined.close_said chunk told }
{
    match told {
        CloseTold::NoChunk => pgs_done::CloseAnswer::NoChunk,
        CloseTold::ClosedBefore => pgs_done::CloseAnswer::ClosedBefore { chunk },
        CloseTold::Preempted { request } => pgs_done::CloseAnswer::Preempted {
            client: request.client,
            serial: request.serial,
        },
        CloseTold::IntervalChanged { old, new } => {
            pgs_done::CloseAnswer::IntervalChanged { old, new }
        }
        CloseTold::DeviceFault { osd, count } => pgs_done::CloseAnswer::DeviceFault { osd, count },
        CloseTold::NotYet { osd } => pgs_done::CloseAnswer::NotYet { osd },
        CloseTold::Closed {
            findings,
            snaps,
            completes,
        } => pgs_done::CloseAnswer::Closed {
            chunk,
            findings,
            snaps,
            completes,
        },
    }
}
