use crate::{ClaimAnswer, Holder, OsdSlots, SlotList};
use std::alloc::{AllocError, Global};
use std::test::Fail;

fn scrub(group: u32, serial: u64) -> Holder {
    Holder { group, serial }
}

// The OSD 4 has two slots, and the OSD 9 one.
fn two_osds(alloc: Global) -> Result<SlotList, AllocError> {
    let osds = [OsdSlots { osd: 4, slots: 2 }, OsdSlots { osd: 9, slots: 1 }];
    SlotList::new(alloc, &osds)
}

// The number of the slot that a claim was given.
fn claim(
    alloc: Global,
    list: &mut SlotList,
    osd: u32,
    holder: Holder,
) -> Result<Option<u8>, AllocError> {
    match list.claim(alloc, osd, holder)? {
        ClaimAnswer::Claimed { slot } => Ok(Some(slot)),
        ClaimAnswer::Denied { .. } => Ok(None),
        ClaimAnswer::Unknown => Ok(None),
    }
}

// Who the first and the second holder are, where a claim is denied for two.
fn denied_by(
    alloc: Global,
    list: &mut SlotList,
    osd: u32,
) -> Result<Option<(Holder, Holder)>, AllocError> {
    match list.claim(alloc, osd, scrub(9, 9))? {
        ClaimAnswer::Denied { holders } => Ok(pair(holders.as_slice())),
        _ => Ok(None),
    }
}

fn pair(holders: &[Holder]) -> Option<(Holder, Holder)> {
    match holders {
        [first, second] => Some((*first, *second)),
        _ => None,
    }
}

fn is_unknown(alloc: Global, list: &mut SlotList, osd: u32) -> Result<bool, AllocError> {
    match list.claim(alloc, osd, scrub(1, 1))? {
        ClaimAnswer::Unknown => Ok(true),
        _ => Ok(false),
    }
}

// Whether the two slots of an OSD are so.
fn are_held(list: &SlotList, osd: u32, first: Option<Holder>, second: Option<Holder>) -> bool {
    match list.holders(osd) {
        Some([a, b]) => *a == first && *b == second,
        _ => false,
    }
}

// Two scrubs take the two slots of the OSD 4.
fn fill(alloc: Global, list: &mut SlotList) -> Result<bool, AllocError> {
    let first = claim(alloc, list, 4, scrub(1, 7))?;
    let second = claim(alloc, list, 4, scrub(2, 3))?;
    Ok(first == Some(0) && second == Some(1))
}

fn is_denied(alloc: Global, list: &mut SlotList) -> Result<bool, AllocError> {
    Ok(denied_by(alloc, list, 4)? == Some((scrub(1, 7), scrub(2, 3))))
}

#[test]
fn slots_claimed_and_denied(rt: HostRuntime) -> Result<(), Fail> {
    let mut list = two_osds(rt.alloc())?;
    assert!(rt; fill(rt.alloc(), &mut list)?);
    assert!(rt; is_denied(rt.alloc(), &mut list)?);
    assert!(rt; claim(rt.alloc(), &mut list, 9, scrub(9, 9))? == Some(0));
    assert!(rt; is_unknown(rt.alloc(), &mut list, 5)?);
    Ok(())
}

#[test]
fn slots_released(rt: HostRuntime) -> Result<(), Fail> {
    let mut list = two_osds(rt.alloc())?;
    assert!(rt; fill(rt.alloc(), &mut list)?);
    assert!(rt; list.release(4, scrub(1, 8)).is_none());
    assert!(rt; list.release(4, scrub(1, 7)) == Some(0));
    assert!(rt; are_held(&list, 4, None, Some(scrub(2, 3))));
    assert!(rt; list.release(4, scrub(1, 7)).is_none());
    Ok(())
}
