ghost use Rattle.std.specs.Prelude.{◌≡◌, IfOk};

use crate::{Gate, ParkError, Verdict, Waiting};
use pgs_bytes::Bytes;
use pgs_name::Family;
use pgs_op::Write;
use pgs_range::{Bound, FamilyRange};
use pgs_request::{Op, ReqId, SnapContext, Snaps};
use std::alloc::{AllocError, Global};
use std::test::Fail;

fn family(alloc: Global, name: &[u8]) -> Result<Family, AllocError> {
    let name = Bytes::from_slice(alloc, name)?;
    Family::new(Bytes::new(alloc), Bytes::new(alloc), name)
}

// The order of the names is a, b, d, c.
fn from_b_to_c(alloc: Global) -> Result<FamilyRange, AllocError> {
    let from = family(alloc, b"b")?;
    let to = family(alloc, b"c")?;
    Ok(FamilyRange {
        from: Bound::At { family: from },
        to: Bound::At { family: to },
    })
}

fn is_told(alloc: Global, gate: &Gate, name: &[u8], wanted: Verdict) -> Result<bool, AllocError> {
    let family = family(alloc, name)?;
    Ok(gate.check(&family) == wanted)
}

// Whether the gate tells this of the families b and d, and lets a and c pass.
fn are_told(alloc: Global, gate: &Gate, inside: Verdict) -> Result<bool, AllocError> {
    Ok(
        is_told(alloc, gate, b"a", Verdict::Pass)?
            && is_told(alloc, gate, b"b", inside)?
            && is_told(alloc, gate, b"d", inside)?
            && is_told(alloc, gate, b"c", Verdict::Pass)?,
    )
}

fn chunk_tells(alloc: Global, firm: bool, inside: Verdict) -> Result<bool, AllocError> {
    let range = from_b_to_c(alloc)?;
    are_told(alloc, &Gate::of_chunk(&range, firm), inside)
}

fn removal(alloc: Global, id: ReqId) -> Result<Write, AllocError>
    ensures { IfOk result (λ write. write.id ≡ id) }
{
    let family = family(alloc, b"a")?;
    let context = SnapContext {
        seq: 0,
        snaps: Snaps::new(alloc),
    };
    Ok(Write {
        id,
        family,
        context,
        op: Op::Remove,
    })
}

// Parks a write of a client's request, unless one is parked.
fn park(alloc: Global, waiting: &mut Waiting, client: u32, serial: u32) -> Result<(), ParkError> {
    let id = ReqId { client, serial };
    if waiting.holds(id) {
        return Ok(());
    }
    let write = removal(alloc, id)?;
    waiting.park(write)
}

fn fill(alloc: Global, waiting: &mut Waiting) -> Result<(), ParkError> {
    for serial in 0..1_024 {
        park(alloc, waiting, 1, serial)?;
    }
    Ok(())
}

fn serial_at(waiting: &Waiting, at: usize) -> Option<u32> {
    match waiting.get(at) {
        Some(write) => Some(write.id.serial),
        None => None,
    }
}

fn take_serial(waiting: &mut Waiting) -> Option<u32> {
    match waiting.take_first() {
        Some(write) => Some(write.id.serial),
        None => None,
    }
}

// Parks three writes, the third of which is parked already.
fn park_two(alloc: Global, waiting: &mut Waiting) -> Result<(), ParkError> {
    park(alloc, waiting, 7, 2)?;
    park(alloc, waiting, 8, 1)?;
    park(alloc, waiting, 7, 2)
}

fn are_two(waiting: &Waiting) -> bool {
    waiting.len() == 2
        && waiting.holds(ReqId {
            client: 8,
            serial: 1,
        })
        && !waiting.holds(ReqId {
            client: 8,
            serial: 2,
        })
}

fn are_taken_in_order(waiting: &mut Waiting) -> bool {
    take_serial(waiting) == Some(2)
        && take_serial(waiting) == Some(1)
        && take_serial(waiting).is_none()
}

fn is_full(waiting: &Waiting) -> bool {
    waiting.len() == 1_024
        && serial_at(waiting, 0) == Some(0)
        && serial_at(waiting, 1_023) == Some(1_023)
}

#[test]
fn verdicts_of_a_gate(rt: HostRuntime) -> Result<(), Fail> {
    let none = Gate::without_chunk();
    assert!(rt; are_told(rt.alloc(), &none, Verdict::Pass)?);
    assert!(rt; chunk_tells(rt.alloc(), false, Verdict::Preempts)?);
    assert!(rt; chunk_tells(rt.alloc(), true, Verdict::Waits)?);
    Ok(())
}

#[test]
fn writes_parked_and_taken(rt: HostRuntime) -> Result<(), Fail> {
    let mut waiting = Waiting::new(rt.alloc());
    park_two(rt.alloc(), &mut waiting)?;
    assert!(rt; are_two(&waiting));
    assert!(rt; are_taken_in_order(&mut waiting));
    Ok(())
}

#[test]
fn a_full_queue(rt: HostRuntime) -> Result<(), Fail> {
    let mut waiting = Waiting::new(rt.alloc());
    fill(rt.alloc(), &mut waiting)?;
    let refused = park(rt.alloc(), &mut waiting, 2, 1);
    assert!(rt; refused == Err(ParkError::QueueFull { count: 1_024 }));
    assert!(rt; is_full(&waiting));
    Ok(())
}
