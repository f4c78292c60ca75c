use crate::{AddAnswer, Job, ScrubQueue};
use pgs_chunk::Kind;
use std::alloc::{AllocError, Global};
use std::test::Fail;

fn job(group: u32, rank: u8, not_before: u32) -> Job {
    Job {
        group,
        kind: Kind::Shallow,
        rank,
        not_before,
    }
}

// Whether each is queued that is added.
fn add(queue: &mut ScrubQueue, group: u32, rank: u8, not_before: u32) -> Result<bool, AllocError> {
    Ok(queue.add(job(group, rank, not_before))? == AddAnswer::Queued)
}

// The group 3 is less urgent than the others, and its time comes first.
fn add_four(queue: &mut ScrubQueue) -> Result<bool, AllocError> {
    Ok(
        add(queue, 3, 5, 10)?
            && add(queue, 2, 1, 20)?
            && add(queue, 1, 1, 20)?
            && add(queue, 4, 1, 15)?,
    )
}

fn picks(queue: &mut ScrubQueue, now: u32, group: u32) -> bool {
    match queue.pick(now) {
        Some(job) => job.group == group,
        None => false,
    }
}

fn picks_in_order(queue: &mut ScrubQueue) -> bool {
    queue.pick(9).is_none() && picks(queue, 20, 4) && picks(queue, 20, 1) && picks(queue, 20, 2)
}

fn picks_last(queue: &mut ScrubQueue) -> bool {
    queue.len() == 1 && picks(queue, 10, 3) && queue.pick(10).is_none()
}

// The job of the group 1 stays where another of it is added.
fn keeps_first(queue: &mut ScrubQueue) -> Result<bool, AllocError> {
    let first = job(1, 1, 20);
    let queued = queue.add(first)?;
    let answer = queue.add(job(1, 0, 0))?;
    Ok(queued == AddAnswer::Queued && answer == AddAnswer::Already { job: first })
}

fn is_only(queue: &ScrubQueue, wanted: Job) -> bool {
    match queue.jobs() {
        [job] => *job == wanted,
        _ => false,
    }
}

fn drops_once(queue: &mut ScrubQueue) -> bool {
    queue.drop_job(2).is_none()
        && queue.drop_job(1) == Some(job(1, 1, 20))
        && queue.drop_job(1).is_none()
}

#[test]
fn jobs_picked_in_order(rt: HostRuntime) -> Result<(), Fail> {
    let mut queue = ScrubQueue::new(rt.alloc());
    assert!(rt; add_four(&mut queue)?);
    assert!(rt; picks_in_order(&mut queue));
    assert!(rt; picks_last(&mut queue));
    Ok(())
}

#[test]
fn one_job_a_group(rt: HostRuntime) -> Result<(), Fail> {
    let mut queue = ScrubQueue::new(rt.alloc());
    assert!(rt; keeps_first(&mut queue)?);
    assert!(rt; is_only(&queue, job(1, 1, 20)));
    assert!(rt; drops_once(&mut queue));
    assert!(rt; queue.len() == 0);
    Ok(())
}
