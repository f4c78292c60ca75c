use crate::making::clones_and_next;
use pgs_chunk::{Limits, Settings, is_full, limit_after, select};
use pgs_range::{Bound, FamilyRange};
use std::alloc::Global;
use std::test::Fail;

#[test]
fn limits_after_preemptions(rt: HostRuntime) -> Result<(), Fail> {
    let usual = Limits::usual();
    let rows = [
        (0, 25),
        (1, 12),
        (2, 6),
        (3, 5),
        (31, 5),
        (32, 5),
        (u32::MAX, 5),
    ];
    for (preemptions, wanted) in rows {
        assert_eq!(rt; limit_after(&usual, preemptions), wanted);
    }
    let none = Limits {
        chunk_min: 0,
        chunk_max: u32::MAX,
        preemptions: 40,
    };
    assert_eq!(rt; limit_after(&none, 31), 1);
    assert_eq!(rt; limit_after(&none, 32), 0);
    assert_eq!(rt; Settings::usual().limits.preemptions, 5);
    Ok(())
}

// Whether a bound is at the object b.
fn is_at_next(bound: &Bound) -> bool {
    match bound {
        Bound::At { family } => family.name() == b"b".as_slice(),
        _ => false,
    }
}

fn is_greatest(bound: &Bound) -> bool {
    match bound {
        Bound::Max => true,
        _ => false,
    }
}

fn selected(alloc: Global, clones: u64, start: &Bound, limit: u32) -> Result<FamilyRange, Fail> {
    let listed = clones_and_next(alloc, clones)?;
    Ok(select(listed.as_slice(), start, limit)?)
}

// So many clones of one object and a position of the next; whether the chunk ends at the next.
#[test]
fn whole_families(rt: HostRuntime) -> Result<(), Fail> {
    let alloc = rt.alloc();
    let rows = [
        (30, 25, true),
        (1, 1, true),
        (3, 3, true),
        (3, 4, false),
        (3, 25, false),
        (0, 1, false),
    ];
    for (clones, limit, at_next) in rows {
        let range = selected(alloc, clones, &Bound::Min, limit)?;
        assert_eq!(rt; is_at_next(&range.to), at_next);
        assert_eq!(rt; is_greatest(&range.to), !at_next);
    }
    Ok(())
}

// A listing may stop at the position behind the limit, where that is of another family.
#[test]
fn full_listings(rt: HostRuntime) -> Result<(), Fail> {
    let alloc = rt.alloc();
    let rows = [(3, 3, true), (3, 4, false), (0, 0, false)];
    for (clones, limit, full) in rows {
        let listed = clones_and_next(alloc, clones)?;
        assert_eq!(rt; is_full(listed.as_slice(), limit), full);
    }
    Ok(())
}

#[test]
fn the_rest_from_a_start(rt: HostRuntime) -> Result<(), Fail> {
    let alloc = rt.alloc();
    let first = selected(alloc, 30, &Bound::Min, 25)?;
    let rest = selected(alloc, 30, &first.to, 25)?;
    assert!(rt; is_at_next(&rest.from));
    assert!(rt; is_greatest(&rest.to));
    Ok(())
}
