//! What a write finds of its object, by the head's copy in the clean store.
ghost use Rattle.std.specs.Prelude.{◌≡◌, IfOk, if◌then◌else◌};
ghost use Rattle.std.specs.Option.{option_copied};
ghost use Rattle.pgs_copy.specs.Copies.{info_name, snapset_name};
ghost use Rattle.pgs_info.specs.Info.{info_in};
ghost use Rattle.pgs_snapset.specs.Spelling.{snapset_in};
ghost use Rattle.pgs_op.specs.Heads as heads;

use crate::head::Head;
use pgs_bytes::Bytes;
use pgs_copy::ObjCopy;
use pgs_info::ObjectInfo;
use pgs_snapset::{Clones, SnapSet};
use std::alloc::{AllocError, Global};

/// What a write finds, of the head's copy.
pub fn find_head(alloc: Global, copy: Option<&ObjCopy>) -> Result<Head, AllocError>
    ensures { IfOk result (λ head. head ≡ heads.head_of (option_copied copy.entry)) }
{
    let info = recorded_info(alloc, copy)?;
    let snapset = recorded_snapset(alloc, copy)?;
    let exists = copy.is_some() && !is_whiteout(info.as_ref());
    let size = size_where(exists, copy);
    Ok(Head {
        info,
        snapset,
        exists,
        size,
    })
}

// An attribute of a copy that may not be there.
fn attr_of<'a>(
    alloc: Global,
    name: &[u8],
    copy: Option<&'a ObjCopy>,
) -> Result<Option<&'a Bytes>, AllocError>
    ensures { IfOk result (λ value. option_copied value ≡ heads.attr_of name.now (option_copied copy.entry)) }
{
    let Some(copy) = copy else {
        return Ok(None);
    };
    let name = Bytes::from_slice(alloc, name)?;
    Ok(copy.attrs.get(&name))
}

fn recorded_info(alloc: Global, copy: Option<&ObjCopy>) -> Result<Option<ObjectInfo>, AllocError>
    ensures { IfOk result (λ info. info ≡ info_in (heads.attr_of info_name (option_copied copy.entry))) }
{
    let text = attr_of(alloc, b"_", copy)?;
    ObjectInfo::read(alloc, text)
}

fn recorded_snapset(alloc: Global, copy: Option<&ObjCopy>) -> Result<SnapSet, AllocError>
    ensures { IfOk result (λ set. set ≡ heads.or_no_snapset (snapset_in (heads.attr_of snapset_name (option_copied copy.entry)))) }
{
    let text = attr_of(alloc, b"snapset", copy)?;
    match SnapSet::read(alloc, text)? {
        Some(set) => Ok(set),
        None => Ok(no_snapset(alloc)),
    }
}

fn no_snapset(alloc: Global) -> SnapSet
    ensures { result ≡ heads.no_snapset }
{
    SnapSet {
        seq: 0,
        clones: Clones::new(alloc),
    }
}

fn is_whiteout(info: Option<&ObjectInfo>) -> bool
    ensures { result ≡ heads.is_whiteout (option_copied info.entry) }
{
    match info {
        Some(info) => info.whiteout,
        None => false,
    }
}

// The bytes of a copy's data, where the head exists.
fn size_where(exists: bool, copy: Option<&ObjCopy>) -> u64
    ensures { result ≡ (if exists then heads.data_size (option_copied copy.entry) else 0) }
{
    if !exists {
        return 0;
    }
    match copy {
        Some(copy) => copy.bytes.len() as u64,
        None => 0,
    }
}
