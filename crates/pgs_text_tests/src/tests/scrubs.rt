use super::printing::says;
use pgs_bytes::Bytes;
use pgs_done::{BeginAnswer, Bound, CloseAnswer, Done, OpenAnswer, Range};
use pgs_lines::{Kind, Object};
use std::alloc::{AllocError, Global};
use std::test::Fail;

#[test]
fn begins(rt: HostRuntime) -> Result<(), Fail> {
    let rows = [
        (
            Kind::Deep,
            BeginAnswer::Began { serial: 1 },
            b"begin 0 deep : began 0.1".as_slice(),
        ),
        (
            Kind::Shallow,
            BeginAnswer::Busy { serial: 12 },
            b"begin 0 shallow : busy 0.12".as_slice(),
        ),
    ];
    for (kind, answer, wanted) in rows {
        let done = Done::Begin {
            group: 0,
            kind,
            answer,
        };
        assert!(rt; says(rt.alloc(), done, wanted)?);
    }
    Ok(())
}

// At the family of the object `b`, with this key.
fn at(alloc: Global, key: &[u8]) -> Result<Bound, AllocError> {
    let object = Object {
        space: Bytes::new(alloc),
        key: Bytes::from_slice(alloc, key)?,
        name: Bytes::from_slice(alloc, b"b")?,
    };
    Ok(Bound::At { object })
}

fn open(answer: OpenAnswer) -> Done {
    Done::Open { group: 0, answer }
}

// A chunk of this number, opened at the version of the same number.
fn opened(chunk: u64, from: Bound, to: Bound, firm: bool) -> Done {
    let range = Range { from, to };
    open(OpenAnswer::Opened {
        chunk,
        range,
        version: chunk,
        limit: 1,
        firm,
    })
}

#[test]
fn opens(rt: HostRuntime) -> Result<(), Fail> {
    let alloc = rt.alloc();
    let done = opened(1, Bound::Min, at(alloc, b"k")?, false);
    assert!(rt;
        says(
            alloc,
            done,
            b"open 0 : opened 1 from min to at - k b version 1 limit 1"
        )?
    );
    let done = opened(2, at(alloc, b"k")?, Bound::Max, false);
    assert!(rt;
        says(
            alloc,
            done,
            b"open 0 : opened 2 from at - k b to max version 2 limit 1"
        )?
    );
    let done = opened(3, at(alloc, b"b")?, Bound::Max, true);
    assert!(rt;
        says(
            alloc,
            done,
            b"open 0 : opened 3 from at - - b to max version 3 limit 1 firm"
        )?
    );
    Ok(())
}

#[test]
fn opens_no_chunk(rt: HostRuntime) -> Result<(), Fail> {
    let alloc = rt.alloc();
    assert!(rt;
        says(
            alloc,
            open(OpenAnswer::Already { chunk: 7 }),
            b"open 0 : already 7"
        )?
    );
    assert!(rt; says(alloc, open(OpenAnswer::NoScrub), b"open 0 : no-scrub")?);
    Ok(())
}

// A chunk of this number, closed without findings.
fn closed(chunk: u64, completes: bool) -> CloseAnswer {
    CloseAnswer::Closed {
        chunk,
        findings: 0,
        snaps: 0,
        completes,
    }
}

#[test]
fn closes(rt: HostRuntime) -> Result<(), Fail> {
    let rows = [
        (
            closed(1, false),
            b"close 0 : closed 1 findings 0 snaps 0".as_slice(),
        ),
        (
            closed(2, true),
            b"close 0 : closed 2 findings 0 snaps 0 completes".as_slice(),
        ),
        (
            CloseAnswer::NotYet { osd: 5 },
            b"close 0 : not-yet 5".as_slice(),
        ),
        (
            CloseAnswer::ClosedBefore { chunk: 3 },
            b"close 0 : closed-before 3".as_slice(),
        ),
        (CloseAnswer::NoChunk, b"close 0 : no-chunk".as_slice()),
        (
            CloseAnswer::Preempted {
                client: 7,
                serial: 2,
            },
            b"close 0 : preempted 7 2".as_slice(),
        ),
    ];
    for (answer, wanted) in rows {
        let done = Done::Close { group: 0, answer };
        assert!(rt; says(rt.alloc(), done, wanted)?);
    }
    Ok(())
}
