use pgs_copy::Pairs;
use pgs_facts::{CopyFacts, has_other_size};
use pgs_map::Entry;
use pgs_name::{HEAD, NameError, ObjectId};
use std::alloc::Global;
use std::test::Fail;

// A head's copy of 7 bytes without attributes.
fn bare(alloc: Global) -> Result<Entry, NameError> {
    let id = ObjectId::new(alloc, b"", b"", b"a", HEAD)?;
    Ok(Entry {
        id,
        stat_failed: false,
        read_failed: false,
        size: 7,
        attrs: Pairs::new(alloc),
        data_digest: None,
        omap_digest: None,
    })
}

#[test]
fn a_copy_without_attributes(rt: HostRuntime) -> Result<(), Fail> {
    let entry = bare(rt.alloc())?;
    let facts = CopyFacts::of(rt.alloc(), &entry)?;
    assert_eq!(rt; facts.size, 7);
    assert!(rt; facts.misses_info());
    assert!(rt; facts.misses_snapset());
    assert!(rt; !facts.has_bad_info(&entry.id));
    assert!(rt; !facts.has_bad_snapset());
    assert!(rt; !facts.has_wrong_size());
    Ok(())
}

#[test]
fn no_info_has_no_other_size(rt: HostRuntime) -> Result<(), Fail> {
    assert!(rt; !has_other_size(7, None));
    Ok(())
}
