//! What is printed of the steps of a member's scan.
use super::printing::{object, says};
use pgs_bytes::Bytes;
use pgs_done::{Done, Mark, Position, ScanAnswer, TakeAnswer};
use pgs_lines::Object;
use std::alloc::{AllocError, Global};
use std::test::Fail;

fn scan(answer: ScanAnswer) -> Done {
    Done::Scan {
        group: 0,
        osd: 5,
        answer,
    }
}

fn passed(position: Position, mark: Mark) -> Done {
    scan(ScanAnswer::Passed { position, mark })
}

// The object `a` with no space and no key: its head, or a clone.
fn plain(alloc: Global, snap: Option<u64>) -> Result<Position, AllocError> {
    let object = object(alloc, b"a")?;
    Ok(Position { object, snap })
}

// The head of the object `a` in the space `s`, with this key.
fn keyed(alloc: Global, key: &[u8]) -> Result<Position, AllocError> {
    let object = Object {
        space: Bytes::from_slice(alloc, b"s")?,
        key: Bytes::from_slice(alloc, key)?,
        name: Bytes::from_slice(alloc, b"a")?,
    };
    Ok(Position { object, snap: None })
}

fn not_yet(applied: u64, needed: u64) -> Done {
    scan(ScanAnswer::NotYet { applied, needed })
}

#[test]
fn scans(rt: HostRuntime) -> Result<(), Fail> {
    let alloc = rt.alloc();
    assert!(rt; says(alloc, scan(ScanAnswer::Idle), b"scan 0 5 : idle")?);
    assert!(rt; says(alloc, not_yet(3, 4), b"scan 0 5 : not-yet 3 4")?);
    assert!(rt; says(alloc, scan(ScanAnswer::More), b"scan 0 5 : more")?);
    assert!(rt; says(alloc, scan(ScanAnswer::Done), b"scan 0 5 : done")?);
    let fault = scan(ScanAnswer::ListFault { count: 1 });
    assert!(rt; says(alloc, fault, b"scan 0 5 : list-fault 1")?);
    Ok(())
}

fn found(position: Position) -> Done {
    scan(ScanAnswer::Found { position })
}

#[test]
fn positions_found(rt: HostRuntime) -> Result<(), Fail> {
    let alloc = rt.alloc();
    assert!(rt;
        says(
            alloc,
            found(plain(alloc, None)?),
            b"scan 0 5 : found - - a head"
        )?
    );
    assert!(rt;
        says(
            alloc,
            found(keyed(alloc, b"k")?),
            b"scan 0 5 : found s k a head"
        )?
    );
    assert!(rt;
        says(
            alloc,
            found(keyed(alloc, b"a")?),
            b"scan 0 5 : found s - a head"
        )?
    );
    Ok(())
}

#[test]
fn positions_passed(rt: HostRuntime) -> Result<(), Fail> {
    let alloc = rt.alloc();
    let done = passed(plain(alloc, Some(18_446_744_073_709_551_615))?, Mark::Fine);
    assert!(rt; says(alloc, done, b"scan 0 5 : passed - - a 18446744073709551615")?);
    let done = passed(plain(alloc, None)?, Mark::StatError);
    assert!(rt; says(alloc, done, b"scan 0 5 : passed - - a head stat-error")?);
    let done = passed(keyed(alloc, b"k")?, Mark::ReadError);
    assert!(rt; says(alloc, done, b"scan 0 5 : passed s k a head read-error")?);
    Ok(())
}

#[test]
fn takes(rt: HostRuntime) -> Result<(), Fail> {
    let rows = [
        (
            TakeAnswer::Taken {
                applied: 3,
                place: 12,
            },
            b"take 0 5 : taken 3 12".as_slice(),
        ),
        (
            TakeAnswer::Stale { chunk: Some(2) },
            b"take 0 5 : stale 2".as_slice(),
        ),
        (
            TakeAnswer::Stale { chunk: None },
            b"take 0 5 : stale none".as_slice(),
        ),
        (TakeAnswer::NotDone, b"take 0 5 : not-done".as_slice()),
        (
            TakeAnswer::Fault { count: 1 },
            b"take 0 5 : fault 1".as_slice(),
        ),
    ];
    for (answer, wanted) in rows {
        let done = Done::Take {
            group: 0,
            osd: 5,
            answer,
        };
        assert!(rt; says(rt.alloc(), done, wanted)?);
    }
    Ok(())
}
