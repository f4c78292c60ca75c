//! The lines that say who acts, who holds slots, which scrubs wait and which calls fail.
use super::lines::is_read;
use super::printing::says;
use pgs_done::{
    ClaimAnswer, CloseAnswer, Done, Holder, IntervalAnswer, JobAnswer, OpenAnswer, PickAnswer,
    ReleaseAnswer, TakeAnswer, UnjobAnswer,
};
use pgs_lines::Kind;
use sqlite_items::Items;
use std::alloc::{AllocError, Global};
use std::test::Fail;

#[test]
fn plans_are_read(rt: HostRuntime) -> Result<(), Fail> {
    let good = [
        b"fail 0 1 list 1".as_slice(),
        b"fail 7 63 attrs 4294967295".as_slice(),
        b"fail 0 1 stat 1".as_slice(),
        b"fail 0 1 read 1".as_slice(),
        b"fail 0 1 omap 1".as_slice(),
        b"fail 0 1 write 1".as_slice(),
        b"interval 0 1".as_slice(),
        b"interval 0 3 1 2".as_slice(),
        b"claim 0".as_slice(),
        b"release 0 1".as_slice(),
        b"job 0 deep 255 4294967295".as_slice(),
        b"job 0 shallow 0 0".as_slice(),
        b"unjob 0".as_slice(),
        b"pick 0".as_slice(),
    ];
    for line in good {
        assert!(rt; is_read(rt.alloc(), line));
    }
    let bad = [
        b"fail 0 1 list 0".as_slice(),
        b"fail 0 1 scan 1".as_slice(),
        b"fail 0 1 list".as_slice(),
        b"fail 0 1 list 1 1".as_slice(),
        b"interval 0".as_slice(),
        b"interval 0 1 -".as_slice(),
        b"claim".as_slice(),
        b"claim 0 1".as_slice(),
        b"release 0".as_slice(),
        b"job 0 deep 256 0".as_slice(),
        b"job 0 deep 1".as_slice(),
        b"job 0 repair 1 0".as_slice(),
        b"unjob 0 0".as_slice(),
        b"pick".as_slice(),
    ];
    for line in bad {
        assert!(rt; !is_read(rt.alloc(), line));
    }
    Ok(())
}

fn interval(alloc: Global, answer: IntervalAnswer) -> Result<Done, AllocError> {
    Ok(Done::Interval {
        group: 1,
        acting: Items::from_slice(alloc, [6, 5].as_slice())?,
        answer,
    })
}

#[test]
fn intervals(rt: HostRuntime) -> Result<(), Fail> {
    let rows = [
        (
            IntervalAnswer::Changed {
                epoch: 5,
                ends: None,
            },
            b"interval 1 6 5 : interval 5".as_slice(),
        ),
        (
            IntervalAnswer::Changed {
                epoch: 5,
                ends: Some(2),
            },
            b"interval 1 6 5 : interval 5 ends 1.2".as_slice(),
        ),
        (
            IntervalAnswer::NotCaughtUp {
                osd: 6,
                told: 3,
                length: 4,
            },
            b"interval 1 6 5 : not-caught-up 6 3 4".as_slice(),
        ),
        (
            IntervalAnswer::LastEpoch {
                epoch: 4_294_967_295,
            },
            b"interval 1 6 5 : last-epoch 4294967295".as_slice(),
        ),
    ];
    for (answer, wanted) in rows {
        let done = interval(rt.alloc(), answer)?;
        assert!(rt; says(rt.alloc(), done, wanted)?);
    }
    Ok(())
}

fn claim(answer: ClaimAnswer) -> Done {
    Done::Claim { group: 1, answer }
}

// The scrubs 1.2 and 0.11 hold the slots of the OSD 5.
fn denied(alloc: Global) -> Result<ClaimAnswer, AllocError> {
    let holders = [
        Holder {
            group: 1,
            serial: 2,
        },
        Holder {
            group: 0,
            serial: 11,
        },
    ];
    Ok(ClaimAnswer::Denied {
        osd: 5,
        holders: Items::from_slice(alloc, holders.as_slice())?,
    })
}

#[test]
fn claims(rt: HostRuntime) -> Result<(), Fail> {
    let alloc = rt.alloc();
    let answer = ClaimAnswer::Claimed { osd: 6, slot: 7 };
    assert!(rt; says(alloc, claim(answer), b"claim 1 : claimed 6 7")?);
    let answer = ClaimAnswer::Reserved { osd: 6, slot: 0 };
    assert!(rt; says(alloc, claim(answer), b"claim 1 : reserved 6 0")?);
    let answer = denied(alloc)?;
    assert!(rt; says(alloc, claim(answer), b"claim 1 : denied 5 1.2,0.11")?);
    assert!(rt; says(alloc, claim(ClaimAnswer::NoClaim), b"claim 1 : no-claim")?);
    Ok(())
}

#[test]
fn releases(rt: HostRuntime) -> Result<(), Fail> {
    let rows = [
        (
            ReleaseAnswer::Released { serial: 12 },
            b"release 1 5 : released 1.12".as_slice(),
        ),
        (ReleaseAnswer::NotHeld, b"release 1 5 : not-held".as_slice()),
    ];
    for (answer, wanted) in rows {
        let done = Done::Release {
            group: 1,
            osd: 5,
            answer,
        };
        assert!(rt; says(rt.alloc(), done, wanted)?);
    }
    Ok(())
}

// A deep scrub of the group 1 is put into the queue.
fn job(answer: JobAnswer) -> Done {
    Done::Job {
        group: 1,
        kind: Kind::Deep,
        rank: 255,
        moment: 7,
        answer,
    }
}

#[test]
fn jobs(rt: HostRuntime) -> Result<(), Fail> {
    let alloc = rt.alloc();
    assert!(rt; says(alloc, job(JobAnswer::Queued), b"job 1 deep 255 7 : queued")?);
    let answer = JobAnswer::Already {
        kind: Kind::Shallow,
        rank: 3,
        moment: 9,
    };
    assert!(rt;
        says(
            alloc,
            job(answer),
            b"job 1 deep 255 7 : already shallow 3 9"
        )?
    );
    Ok(())
}

fn unjob(answer: UnjobAnswer) -> Done {
    Done::Unjob { group: 1, answer }
}

fn pick(answer: PickAnswer) -> Done {
    Done::Pick { moment: 9, answer }
}

#[test]
fn jobs_leave_the_queue(rt: HostRuntime) -> Result<(), Fail> {
    let alloc = rt.alloc();
    assert!(rt; says(alloc, unjob(UnjobAnswer::Dropped), b"unjob 1 : dropped")?);
    assert!(rt; says(alloc, unjob(UnjobAnswer::None), b"unjob 1 : none")?);
    let answer = PickAnswer::Picked {
        group: 3,
        kind: Kind::Deep,
    };
    assert!(rt; says(alloc, pick(answer), b"pick 9 : picked 3 deep")?);
    assert!(rt; says(alloc, pick(PickAnswer::None), b"pick 9 : none")?);
    Ok(())
}

fn open(answer: OpenAnswer) -> Done {
    Done::Open { group: 1, answer }
}

fn close(answer: CloseAnswer) -> Done {
    Done::Close { group: 1, answer }
}

#[test]
fn faults(rt: HostRuntime) -> Result<(), Fail> {
    let alloc = rt.alloc();
    assert!(rt;
        says(
            alloc,
            open(OpenAnswer::Reserving { osd: 5 }),
            b"open 1 : reserving 5"
        )?
    );
    let answer = OpenAnswer::DeviceFault { osd: 5, count: 2 };
    assert!(rt; says(alloc, open(answer), b"open 1 : device-fault 5 2")?);
    let answer = CloseAnswer::IntervalChanged { old: 4, new: 5 };
    assert!(rt; says(alloc, close(answer), b"close 1 : interval-changed 4 5")?);
    let answer = CloseAnswer::DeviceFault { osd: 6, count: 1 };
    assert!(rt; says(alloc, close(answer), b"close 1 : device-fault 6 1")?);
    let done = Done::Take {
        group: 1,
        osd: 6,
        answer: TakeAnswer::Fault { count: 3 },
    };
    assert!(rt; says(alloc, done, b"take 1 6 : fault 3")?);
    Ok(())
}
