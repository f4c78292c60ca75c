//! The infos that a write records: of the head, and of the clone that it makes.
ghost use Rattle.std.specs.Prelude.{◌≡◌, IfOk};
ghost use Rattle.std.specs.Option.{option_copied};
ghost use Rattle.pgs_crc.specs.Digest.{crc};
ghost use Rattle.pgs_request.specs.Payloads.{bytes_of};
ghost use Rattle.pgs_op.specs.Effects as effects;

use crate::head::Head;
use crate::sizes::size_after;
use pgs_crc::{Crc, Tables};
use pgs_info::ObjectInfo;
use pgs_name::{Family, HEAD, ObjectId};
use pgs_request::{Op, Payload, Version};
use std::alloc::{AllocError, Global};

/// The info of the head after a write.
pub fn info_after(
    alloc: Global,
    family: &Family,
    head: &Head,
    version: Version,
    op: &Op,
) -> Result<ObjectInfo, AllocError>
    ensures { IfOk result (λ info. info ≡ effects.info_after family.now head.now version op.now) }
{
    let family = family.clone()?;
    let data_digest = data_digest_after(alloc, op, data_digest_of(head))?;
    let omap_digest = omap_digest_after(op, omap_digest_of(head));
    Ok(ObjectInfo {
        id: ObjectId { family, snap: HEAD },
        version,
        prior: version_in(head.info.as_ref()),
        size: size_after(op, head.size),
        data_digest,
        omap_digest,
        whiteout: is_remove(op),
    })
}

/// The info of a clone that is made of the head.
pub fn clone_info(
    family: &Family,
    head: &Head,
    version: Version,
    snap: u64,
) -> Result<ObjectInfo, AllocError>
    ensures { IfOk result (λ info. info ≡ effects.clone_info family.now head.now version snap) }
{
    let family = family.clone()?;
    Ok(ObjectInfo {
        id: ObjectId { family, snap },
        version,
        prior: version_in(head.info.as_ref()),
        size: head.size,
        data_digest: data_digest_in(head.info.as_ref()),
        omap_digest: omap_digest_in(head.info.as_ref()),
        whiteout: false,
    })
}

/// Whether an operation removes the head.
pub fn is_remove(op: &Op) -> bool
    ensures { result ≡ effects.is_remove op.now }
{
    matches!(op, Op::Remove)
}

fn version_in(info: Option<&ObjectInfo>) -> Version
    ensures { result ≡ effects.version_in (option_copied info.entry) }
{
    match info {
        Some(info) => info.version,
        None => Version {
            epoch: 0,
            number: 0,
        },
    }
}

fn data_digest_in(info: Option<&ObjectInfo>) -> Option<u32>
    ensures { result ≡ effects.data_digest_in (option_copied info.entry) }
{
    let info = info?;
    info.data_digest
}

fn omap_digest_in(info: Option<&ObjectInfo>) -> Option<u32>
    ensures { result ≡ effects.omap_digest_in (option_copied info.entry) }
{
    let info = info?;
    info.omap_digest
}

// The digests that are recorded of a head, where it exists.
fn data_digest_of(head: &Head) -> Option<u32>
    ensures { result ≡ effects.where_there head.now.exists (effects.data_digest_in head.now.info) }
{
    if !head.exists {
        return None;
    }
    data_digest_in(head.info.as_ref())
}

fn omap_digest_of(head: &Head) -> Option<u32>
    ensures { result ≡ effects.where_there head.now.exists (effects.omap_digest_in head.now.info) }
{
    if !head.exists {
        return None;
    }
    omap_digest_in(head.info.as_ref())
}

fn data_digest_after(alloc: Global, op: &Op, digest: Option<u32>) -> Result<Option<u32>, AllocError>
    ensures { IfOk result (λ after. after ≡ effects.data_digest_after op.now digest) }
{
    match op {
        Op::Full { payload } => {
            let digest = digest_of(alloc, payload)?;
            Ok(Some(digest))
        }
        Op::Write { .. } => Ok(None),
        Op::Truncate { .. } => Ok(None),
        Op::Remove => Ok(None),
        _ => Ok(digest),
    }
}

fn omap_digest_after(op: &Op, digest: Option<u32>) -> Option<u32>
    ensures { result ≡ effects.omap_digest_after op.now digest }
{
    match op {
        Op::SetOmap { .. } => None,
        Op::RmOmap { .. } => None,
        Op::SetHeader { .. } => None,
        Op::Remove => None,
        _ => digest,
    }
}

// The digest of a payload's bytes.
fn digest_of(alloc: Global, payload: &Payload) -> Result<u32, AllocError>
    ensures { IfOk result (λ digest. digest ≡ crc (bytes_of payload.now)) }
{
    let tables = Tables::make(alloc)?;
    let bytes = payload.to_bytes(alloc)?;
    let mut digest = Crc::start();
    digest.update(&tables, bytes.as_slice());
    Ok(digest.value())
}
