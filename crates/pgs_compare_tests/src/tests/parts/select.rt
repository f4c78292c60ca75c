use pgs_bytes::Bytes;
use pgs_copy::Pairs;
use pgs_find::ShardError;
use pgs_info::ObjectInfo;
use pgs_map::Entry;
use pgs_name::{NameError, ObjectId};
use pgs_request::Version;
use pgs_select::{Judged, choose, errors_beside, told};
use std::alloc::{AllocError, Global};
use std::test::Fail;

fn clone_id(alloc: Global) -> Result<ObjectId, NameError> {
    ObjectId::new(alloc, b"", b"", b"a", 4)
}

// The info of that clone at its second version.
fn info(alloc: Global, size: u64) -> Result<ObjectInfo, NameError> {
    let id = clone_id(alloc)?;
    Ok(ObjectInfo {
        id,
        version: Version {
            epoch: 1,
            number: 2,
        },
        prior: Version {
            epoch: 0,
            number: 0,
        },
        size,
        data_digest: None,
        omap_digest: None,
        whiteout: false,
    })
}

fn attrs_with(alloc: Global, info: &ObjectInfo) -> Result<Pairs, AllocError> {
    let name = Bytes::from_slice(alloc, b"_")?;
    let text = info.encode(alloc)?;
    let mut attrs = Pairs::new(alloc);
    attrs.set(name, text)?;
    Ok(attrs)
}

// A good copy of the clone.
fn entry(alloc: Global, size: u64) -> Result<Entry, NameError> {
    let info = info(alloc, size)?;
    let attrs = attrs_with(alloc, &info)?;
    let id = clone_id(alloc)?;
    Ok(Entry {
        id,
        stat_failed: false,
        read_failed: false,
        size,
        attrs,
        data_digest: None,
        omap_digest: None,
    })
}

// What is known of a copy that is missing, and of a good one.
fn judged(alloc: Global, entry: &Entry) -> Result<Vec<Judged>, AllocError> {
    let mut judged = Vec::new(alloc);
    let missing = Judged::of(alloc, &entry.id, None)?;
    judged.push(missing)?;
    let good = Judged::of(alloc, &entry.id, Some(entry))?;
    judged.push(good)?;
    Ok(judged)
}

fn chosen(alloc: Global, entry: &Entry) -> Result<Option<usize>, AllocError> {
    let judged = judged(alloc, entry)?;
    Ok(choose(judged.as_slice()))
}

#[test]
fn the_good_copy_is_chosen(rt: HostRuntime) -> Result<(), Fail> {
    let entry = entry(rt.alloc(), 7)?;
    let chosen = chosen(rt.alloc(), &entry)?;
    assert!(rt; chosen == Some(1));
    Ok(())
}

fn has_other_size(alloc: Global, entry: &Entry, chosen: &ObjectInfo) -> Result<bool, AllocError> {
    let judged = Judged::of(alloc, &entry.id, Some(entry))?;
    let errors = errors_beside(&judged, told(Some(entry)), Some(chosen));
    Ok(errors.has(ShardError::SizeMismatchInfo))
}

#[test]
fn a_copy_of_another_size(rt: HostRuntime) -> Result<(), Fail> {
    let entry = entry(rt.alloc(), 7)?;
    let chosen = info(rt.alloc(), 8)?;
    let other = has_other_size(rt.alloc(), &entry, &chosen)?;
    assert!(rt; other);
    Ok(())
}
