ghost use Rattle.std.specs.Prelude.{◌≡◌, [], IfOk};

use crate::tests::group::making::{REQUEST, made, write};
use pgs_chunk::{Kind, Limits};
use pgs_group::{Answer, Counts, Group, Step};
use pgs_history::{CollectAnswer, Made, ReserveAnswer};
use pgs_request::Version;
use sqlite_items::Items;
use std::alloc::{AllocError, Global};
use std::test::Fail;

const VERSION: Version = Version {
    epoch: 4,
    number: 1,
};

// A group with one write.
fn written(alloc: Global) -> Result<Group, AllocError> {
    let made = made(alloc)?;
    let mut group = Group::new(alloc, made);
    let write = write(alloc)?;
    group.submit(write)?;
    Ok(group)
}

// A member that applied the write tells of it, where no write waits.
fn tell(group: &mut Group, osd: u32) -> Result<(), AllocError> {
    if group.is_admitting() {
        return Ok(());
    }
    group.tell(osd, 1)?;
    Ok(())
}

fn collect(group: &mut Group) -> Result<CollectAnswer, AllocError> {
    if group.is_admitting() {
        return Ok(CollectAnswer::Unknown);
    }
    group.collect(REQUEST)
}

// What a client is answered where these members told.
fn collected(alloc: Global, osds: &[u32]) -> Result<CollectAnswer, AllocError> {
    let mut group = written(alloc)?;
    for osd in osds {
        tell(&mut group, *osd)?;
    }
    collect(&mut group)
}

#[test]
fn acknowledged_once_all_told(rt: HostRuntime) -> Result<(), Fail> {
    let alloc = rt.alloc();
    assert!(rt; collected(alloc, &[])? == CollectAnswer::NotYet { osd: 2, told: 0 });
    assert!(rt; collected(alloc, &[2])? == CollectAnswer::NotYet { osd: 0, told: 0 });
    assert!(rt; collected(alloc, &[2, 0])? == CollectAnswer::Acked { version: VERSION });
    Ok(())
}

// How many items a member is given that pulls, by a step.
fn pull(group: &mut Group) -> Result<usize, AllocError> {
    if group.is_admitting() {
        return Ok(9);
    }
    match group.step(Step::Pull { osd: 0 })? {
        Answer::Pull { pulled } => Ok(pulled.items.len()),
        _ => Ok(9),
    }
}

// Whether no scrub began, and nothing was found.
fn is_plain(group: &Group) -> bool {
    group.open_chunk().is_none() && !group.is_deep() && group.findings().list().is_empty()
}

// How many items are pulled, whether the group is plain, and how many events it has then.
fn seen(alloc: Global) -> Result<(usize, bool, usize), AllocError> {
    let mut group = written(alloc)?;
    let pulled = pull(&mut group)?;
    let is_plain = is_plain(&group);
    Ok((pulled, is_plain, group.into_events().len()))
}

#[test]
fn what_a_group_shows(rt: HostRuntime) -> Result<(), Fail> {
    assert_eq!(rt; seen(rt.alloc())?, (1, true, 2));
    Ok(())
}

fn counted(alloc: Global) -> Result<(u64, u64), AllocError> {
    let mut counts = Counts::new(alloc);
    counts.raise(3, 5)?;
    counts.raise(3, 4)?;
    Ok((counts.get(3), counts.get(4)))
}

#[test]
fn counts_never_fall(rt: HostRuntime) -> Result<(), Fail> {
    assert_eq!(rt; counted(rt.alloc())?, (5, 0));
    Ok(())
}

// A group of three OSDs.
fn three(alloc: Global) -> Result<Group, AllocError>
    ensures { IfOk result (λ group. group.past ≡ []) }
{
    let members = Items::from_slice(alloc, &[0, 1, 2])?;
    let made = Made {
        number: 0,
        epoch: 4,
        members,
        limits: Limits::usual(),
    };
    Ok(Group::new(alloc, made))
}

// Where a scrub is to claim that claims at OSD 2 first.
fn claimed_out_of_order(alloc: Global) -> Result<Option<u32>, AllocError> {
    let mut group = three(alloc)?;
    group.begin(Kind::Deep)?;
    match group.reserve(1, 2, None)? {
        ReserveAnswer::NotNext { next } => Ok(next),
        _ => Ok(None),
    }
}

#[test]
fn a_claim_out_of_order(rt: HostRuntime) -> Result<(), Fail> {
    assert!(rt; claimed_out_of_order(rt.alloc())? == Some(0));
    Ok(())
}
