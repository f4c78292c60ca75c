use pgs_find::{
    ObjectError, ObjectErrors, ShardError, ShardErrors, SnapError, SnapErrors, SnapFinding,
    object_rows, shard_rows, snap_rows,
};
use pgs_name::{HEAD, NameError, ObjectId};
use sqlite_items::Items;
use std::alloc::Global;
use std::test::Fail;

#[test]
fn words(rt: HostRuntime) -> Result<(), Fail> {
    assert_eq!(rt;
        ShardError::ObjSizeInfoMismatch.word(),
        "obj_size_info_mismatch"
    );
    assert_eq!(rt; ObjectError::AttrNameMismatch.word(), "attr_name_mismatch");
    assert_eq!(rt; SnapError::Headless.word(), "headless");
    Ok(())
}

#[test]
fn tables(rt: HostRuntime) -> Result<(), Fail> {
    let [missing, ..] = shard_rows();
    assert_eq!(rt; missing.word, "missing");
    let [info, ..] = object_rows();
    assert_eq!(rt; info.bit, 1);
    let [.., extra] = snap_rows();
    assert_eq!(rt; extra.place, 8);
    Ok(())
}

#[test]
fn sets(rt: HostRuntime) -> Result<(), Fail> {
    let mut shard = ShardErrors::none();
    shard.note(ShardError::ReadError, true);
    shard.note(ShardError::Missing, false);
    assert!(rt; shard.has(ShardError::ReadError) && !shard.has(ShardError::Missing));
    let mut object = ObjectErrors::none();
    assert!(rt; object.is_empty());
    object.note(ObjectError::SizeMismatch, true);
    assert!(rt; object.has(ObjectError::SizeMismatch));
    Ok(())
}

fn finding(alloc: Global) -> Result<SnapFinding, NameError> {
    let id = ObjectId::new(alloc, b"", b"", b"a", HEAD)?;
    let mut errors = SnapErrors::none();
    errors.note(SnapError::CloneMissing, true);
    let missing = Items::from_slice(alloc, &[4, 6])?;
    Ok(SnapFinding {
        id,
        errors,
        missing,
        extra: Items::new(alloc),
    })
}

#[test]
fn a_finding_copied(rt: HostRuntime) -> Result<(), Fail> {
    let copy = finding(rt.alloc())?.copied(rt.alloc())?;
    assert!(rt; copy.errors.has(SnapError::CloneMissing));
    assert_eq!(rt; copy.missing.len(), 2);
    Ok(())
}
