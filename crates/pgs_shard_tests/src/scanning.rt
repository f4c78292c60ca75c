//! A shard scans the chunk that it was asked for, step by step, over a device that may fail.
use crate::making::{device, family, items};
use pgs_chunk::Ask;
use pgs_copy::Damage;
use pgs_exchange::{Deposit, Found, open_deposit};
use pgs_medium::{CallKind, Medium};
use pgs_name::HEAD;
use pgs_range::{Bound, FamilyRange};
use pgs_scan::Mark;
use pgs_shard::{Applied, ScanAnswer, Shard};
use pgs_shard_history::DamageAnswer;
use std::alloc::{AllocError, Global};
use std::test::Fail;

// A deep scrub of all families, once the first item is applied.
fn ask() -> Ask {
    Ask {
        serial: 7,
        chunk: 3,
        range: FamilyRange {
            from: Bound::Min,
            to: Bound::Max,
        },
        needed: 1,
        deep: true,
    }
}

fn feed<M: Medium>(alloc: Global, shard: &mut Shard<M>) -> Result<(), AllocError> {
    let items = items(alloc)?;
    shard.feed(0, items, Some(ask()))
}

// A word for each answer.
fn answered(answer: &ScanAnswer) -> &'static str {
    match answer {
        ScanAnswer::Idle => " idle",
        ScanAnswer::NotYet { .. } => " not-yet",
        ScanAnswer::Found { .. } => " found",
        ScanAnswer::More => " more",
        ScanAnswer::Passed { mark, .. } => marked(*mark),
        ScanAnswer::Done => " done",
        ScanAnswer::ListFault { count } => counted(*count),
    }
}

fn marked(mark: Mark) -> &'static str {
    match mark {
        Mark::Fine => " passed",
        Mark::StatError => " stat-error",
        Mark::ReadError => " read-error",
    }
}

fn counted(count: u64) -> &'static str {
    if count == 1 {
        " first-fault"
    } else {
        " other-fault"
    }
}

fn step<M: Medium>(shard: &mut Shard<M>) -> Result<&'static str, AllocError> {
    let answer = shard.scan()?;
    Ok(answered(&answer))
}

// So many steps, told word by word.
fn steps<M: Medium>(shard: &mut Shard<M>, count: u32, told: &mut String) -> Result<(), AllocError> {
    for _ in 0..count {
        let word = step(shard)?;
        told.push_str(word)?;
    }
    Ok(())
}

fn apply<M: Medium>(shard: &mut Shard<M>) -> &'static str {
    match shard.apply_next() {
        Ok(Applied::Applied { drops, .. }) => dropped(drops),
        _ => " unapplied",
    }
}

fn dropped(chunk: Option<u64>) -> &'static str {
    match chunk {
        Some(chunk) => {
            if chunk == 3 {
                " dropped"
            } else {
                " other-chunk"
            }
        }
        None => " applied",
    }
}

fn damage<M: Medium>(alloc: Global, shard: &mut Shard<M>) -> Result<&'static str, AllocError> {
    let family = family(alloc)?;
    match shard.damage(family, HEAD, Damage::Flip { at: 0, xor: 1 })? {
        DamageAnswer::Damaged => Ok(" damaged"),
        DamageAnswer::BeingRead => Ok(" being-read"),
        DamageAnswer::ShardFull { .. } => Ok(" shard-full"),
    }
}

fn handed(alloc: Global, deposit: Option<Deposit>) -> &'static str {
    match deposit {
        Some(deposit) => opened(alloc, deposit),
        None => " nothing",
    }
}

fn opened(alloc: Global, deposit: Deposit) -> &'static str {
    match open_deposit(alloc, deposit) {
        Ok(told) => found(&told.found),
        Err(_) => " no-map",
    }
}

fn found(found: &Found) -> &'static str {
    match found {
        Found::Map { map } => mapped(map.entries.len()),
        Found::ListFault { count } => counted(*count),
    }
}

fn mapped(entries: usize) -> &'static str {
    if entries == 1 {
        " map-of-one"
    } else {
        " other-map"
    }
}

// A step, the first item, so many further steps and two hands, told word by word.
fn scan<M: Medium>(alloc: Global, shard: &mut Shard<M>, count: u32) -> Result<String, AllocError> {
    let mut told = String::new(alloc);
    feed(alloc, shard)?;
    steps(shard, 1, &mut told)?;
    told.push_str(apply(shard))?;
    steps(shard, count, &mut told)?;
    told.push_str(handed(alloc, shard.hand()))?;
    told.push_str(handed(alloc, shard.hand()))?;
    Ok(told)
}

// What such a scan tells over a device of which a call fails.
fn told(alloc: Global, kind: CallKind, number: u64, count: u32) -> Result<String, AllocError> {
    let device = device(alloc, kind, number)?;
    let mut shard = Shard::new(alloc, device, 2, 4);
    scan(alloc, &mut shard, count)
}

#[test]
fn a_chunk_is_scanned_and_handed_once(rt: HostRuntime) -> Result<(), Fail> {
    let told = told(rt.alloc(), CallKind::Read, 9, 8)?;
    assert_eq!(rt;
        told.as_str(),
        " not-yet applied found more more more more passed done idle map-of-one nothing"
    );
    Ok(())
}

#[test]
fn a_listing_that_fails(rt: HostRuntime) -> Result<(), Fail> {
    let told = told(rt.alloc(), CallKind::List, 1, 2)?;
    assert_eq!(rt;
        told.as_str(),
        " not-yet applied first-fault idle first-fault nothing"
    );
    Ok(())
}

#[test]
fn a_size_that_fails(rt: HostRuntime) -> Result<(), Fail> {
    let told = told(rt.alloc(), CallKind::Stat, 1, 3)?;
    assert_eq!(rt;
        told.as_str(),
        " not-yet applied found stat-error done map-of-one nothing"
    );
    Ok(())
}

#[test]
fn a_read_that_fails(rt: HostRuntime) -> Result<(), Fail> {
    let told = told(rt.alloc(), CallKind::Read, 1, 4)?;
    assert_eq!(rt;
        told.as_str(),
        " not-yet applied found more read-error done map-of-one nothing"
    );
    Ok(())
}

// Both items, the second while the copy of the first is found.
fn apply_both<M: Medium>(alloc: Global, shard: &mut Shard<M>) -> Result<String, AllocError> {
    let mut told = String::new(alloc);
    feed(alloc, shard)?;
    told.push_str(apply(shard))?;
    steps(shard, 1, &mut told)?;
    told.push_str(apply(shard))?;
    steps(shard, 2, &mut told)?;
    Ok(told)
}

fn told_of_both(alloc: Global) -> Result<String, AllocError> {
    let device = device(alloc, CallKind::Read, 9)?;
    let mut shard = Shard::new(alloc, device, 2, 4);
    apply_both(alloc, &mut shard)
}

#[test]
fn an_item_of_the_range_drops_the_scan(rt: HostRuntime) -> Result<(), Fail> {
    let told = told_of_both(rt.alloc())?;
    assert_eq!(rt; told.as_str(), " applied found dropped found more");
    Ok(())
}

// Damage to the copy that is found, and once it is passed.
fn damage_twice<M: Medium>(alloc: Global, shard: &mut Shard<M>) -> Result<String, AllocError> {
    let mut told = String::new(alloc);
    feed(alloc, shard)?;
    told.push_str(apply(shard))?;
    steps(shard, 1, &mut told)?;
    told.push_str(damage(alloc, shard)?)?;
    steps(shard, 5, &mut told)?;
    told.push_str(damage(alloc, shard)?)?;
    Ok(told)
}

fn told_of_damage(alloc: Global) -> Result<String, AllocError> {
    let device = device(alloc, CallKind::Read, 9)?;
    let mut shard = Shard::new(alloc, device, 2, 4);
    damage_twice(alloc, &mut shard)
}

#[test]
fn a_copy_that_is_read_is_not_damaged(rt: HostRuntime) -> Result<(), Fail> {
    let told = told_of_damage(rt.alloc())?;
    assert_eq!(rt;
        told.as_str(),
        " applied found being-read more more more more passed damaged"
    );
    Ok(())
}

fn numbers(alloc: Global) -> Result<(u32, u64), AllocError> {
    let device = device(alloc, CallKind::Read, 9)?;
    let mut shard = Shard::new(alloc, device, 2, 4);
    feed(alloc, &mut shard)?;
    Ok((shard.osd(), shard.fed_count()))
}

#[test]
fn a_shard_is_fed_two_items(rt: HostRuntime) -> Result<(), Fail> {
    assert_eq!(rt; numbers(rt.alloc())?, (2, 2));
    Ok(())
}
