use pgs_codec::DecodeError;
use pgs_request::Snaps;
use pgs_snapset::{CloneFacts, Clones, SnapSet};
use std::alloc::{AllocError, Global};
use std::test::Fail;

fn clone_with(alloc: Global, snap: u64, snaps: &[u64]) -> Result<CloneFacts, AllocError> {
    let snaps = Vec::from_slice(alloc, snaps)?;
    Ok(CloneFacts {
        snap,
        size: 9,
        snaps: Snaps::from_vec(snaps),
    })
}

fn snapset(alloc: Global, seq: u64, rows: &[(u64, u64)]) -> Result<SnapSet, AllocError> {
    let mut clones = Clones::new(alloc);
    for (snap, kept) in rows {
        let clone = clone_with(alloc, *snap, &[*kept])?;
        clones.push(clone)?;
    }
    Ok(SnapSet { seq, clones })
}

#[test]
fn the_empty_snapset(rt: HostRuntime) -> Result<(), Fail> {
    let empty = SnapSet {
        seq: 0,
        clones: Clones::from_vec(Vec::new(rt.alloc())),
    };
    let text = empty.encode(rt.alloc())?;
    assert!(rt; text.as_slice() == b"\x53\x01\0\0\0\0\0\0\0\0\0\0\0\0".as_slice());
    Ok(())
}

fn decoded_again(alloc: Global, set: &SnapSet) -> Result<bool, DecodeError> {
    let text = set.encode(alloc)?;
    let again = SnapSet::decode(alloc, text.as_slice())?;
    let spelled = again.clone()?.encode(alloc)?;
    Ok(again.seq == set.seq && spelled == text)
}

#[test]
fn a_snapset_is_decoded(rt: HostRuntime) -> Result<(), Fail> {
    let set = snapset(rt.alloc(), 4, &[(2, 1), (4, 3)])?;
    assert!(rt; matches!(decoded_again(rt.alloc(), &set), Ok(true)));
    Ok(())
}

fn refused_at(alloc: Global, text: &[u8]) -> Result<Option<usize>, AllocError> {
    match SnapSet::decode(alloc, text) {
        Ok(_) => Ok(None),
        Err(DecodeError::Corrupt { at }) => Ok(Some(at)),
        Err(DecodeError::Memory) => Err(AllocError),
    }
}

// A count takes no memory before its clones are read.
#[test]
fn too_many_clones(rt: HostRuntime) -> Result<(), Fail> {
    let text = b"\x53\x01\0\0\0\0\0\0\0\0\xff\xff\xff\xff\0\0\0\0\0\0";
    assert_eq!(rt; refused_at(rt.alloc(), text)?, Some(14));
    Ok(())
}

fn has_facts(made: &Option<CloneFacts>, snap: u64, size: u64, snaps: &[u64]) -> bool {
    match made {
        Some(clone) => {
            clone.snap == snap && clone.size == size && clone.snaps.as_slice() == snaps
        }
        None => false,
    }
}

// The clone has the snaps of the context that are newer than the snapset.
#[test]
fn a_clone_is_made(rt: HostRuntime) -> Result<(), Fail> {
    let set = snapset(rt.alloc(), 4, &[])?;
    let made = set.clone_for(rt.alloc(), 9, &[9, 7, 4, 2], 100)?;
    assert!(rt; has_facts(&made, 9, 100, &[9, 7]));
    let made = set.clone_for(rt.alloc(), 9, &[4, 2], 100)?;
    assert!(rt; made.is_none());
    Ok(())
}

#[test]
fn well_formed_snapsets(rt: HostRuntime) -> Result<(), Fail> {
    let rows = [
        (4, (2, 1), (4, 3), true),
        (3, (2, 1), (4, 3), false),
        (4, (2, 1), (4, 2), false),
        (4, (2, 3), (4, 3), false),
        (4, (4, 3), (4, 4), false),
        (4, (2, 0), (4, 3), false),
    ];
    for (seq, first, second, wanted) in rows {
        let set = snapset(rt.alloc(), seq, &[first, second])?;
        assert_eq!(rt; set.is_well_formed(), wanted);
    }
    Ok(())
}

fn has_well_formed_clone(alloc: Global, snaps: Snaps) -> bool {
    let clone = CloneFacts {
        snap: 9,
        size: 0,
        snaps,
    };
    match one(alloc, clone) {
        Ok(clones) => SnapSet { seq: 9, clones }.is_well_formed(),
        Err(_) => false,
    }
}

fn one(alloc: Global, clone: CloneFacts) -> Result<Clones, AllocError> {
    let mut clones = Clones::new(alloc);
    clones.push(clone)?;
    clones.clone()
}

#[test]
fn snaps_of_a_clone(rt: HostRuntime) -> Result<(), Fail> {
    let alloc = rt.alloc();
    let mut snaps = Snaps::new(alloc);
    assert!(rt; !has_well_formed_clone(alloc, snaps.clone()?));
    snaps.push(8)?;
    snaps.push(5)?;
    assert!(rt; has_well_formed_clone(alloc, snaps.clone()?));
    snaps.push(5)?;
    assert!(rt; !has_well_formed_clone(alloc, snaps));
    Ok(())
}
