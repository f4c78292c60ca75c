//! What the device tells of a copy that is there, or nothing where it failed.
ghost use Rattle.std.specs.Prelude.{◌≡◌, is_some, true, IfOk, IfSome};
ghost use Rattle.pgs_copy.specs.Pairs.{IsInOrder};
ghost use Rattle.pgs_medium.specs.Reads as defined;
ghost use Rattle.pgs_medium.specs.declared.call_kind.CallKind.TheVariants as kinds;
ghost use Rattle.pgs_scan.specs.Asked as asked;
ghost use Rattle.pgs_scan.specs.Asked.{IsAsked};

use crate::appending::last_key;
use pgs_bytes::Bytes;
use pgs_copy::Pairs;
use pgs_medium::{Medium, MediumError, OmapPage};
use pgs_name::ObjectId;
use std::alloc::AllocError;

/// How many bytes its data has.
pub fn size_of<M: Medium>(medium: &mut M, id: &ObjectId) -> Result<Option<u64>, AllocError>
    requires { is_some ((M.device medium.old).stored id.now.family id.now.snap) ≡ true }
    ensures { IsAsked kinds.Stat (defined.size_of ((M.device medium.old).stored id.now.family id.now.snap)) (M.device medium.old) result (M.device medium.new) }
{
    match medium.stat(&id.family, id.snap) {
        Ok(Some(size)) => Ok(Some(size)),
        Ok(None) => unreachable!(),
        Err(MediumError::Failed) => Ok(None),
        Err(MediumError::Memory) => Err(AllocError),
    }
}

/// Its attributes.
pub fn attrs_of<M: Medium>(medium: &mut M, id: &ObjectId) -> Result<Option<Pairs>, AllocError>
    requires { is_some ((M.device medium.old).stored id.now.family id.now.snap) ≡ true }
    ensures { IsAsked kinds.Attrs (defined.attrs_of ((M.device medium.old).stored id.now.family id.now.snap)) (M.device medium.old) result (M.device medium.new) }
{
    match medium.attrs(&id.family, id.snap) {
        Ok(Some(attrs)) => Ok(Some(attrs)),
        Ok(None) => unreachable!(),
        Err(MediumError::Failed) => Ok(None),
        Err(MediumError::Memory) => Err(AllocError),
    }
}

/// At most so many bytes of its data from a place on.
pub fn bytes_of<M: Medium>(
    medium: &mut M,
    id: &ObjectId,
    from: u64,
    count: u64,
) -> Result<Option<Bytes>, AllocError>
    requires { is_some ((M.device medium.old).stored id.now.family id.now.snap) ≡ true }
    ensures { IsAsked kinds.Read (defined.bytes_of from count ((M.device medium.old).stored id.now.family id.now.snap)) (M.device medium.old) result (M.device medium.new) }
{
    match medium.read(&id.family, id.snap, from, count) {
        Ok(Some(bytes)) => Ok(Some(bytes)),
        Ok(None) => unreachable!(),
        Err(MediumError::Failed) => Ok(None),
        Err(MediumError::Memory) => Err(AllocError),
    }
}

/// The page of its omap behind the pairs that were read.
pub fn page_behind<M: Medium>(
    medium: &mut M,
    id: &ObjectId,
    read: &Pairs,
) -> Result<Option<OmapPage>, AllocError>
    requires { is_some ((M.device medium.old).stored id.now.family id.now.snap) ≡ true }
    ensures page { IsAsked kinds.Omap (defined.page_of (asked.last_key read.now) ((M.device medium.old).stored id.now.family id.now.snap)) (M.device medium.old) result (M.device medium.new) }

    // The copy's pairs stand in the order of their keys' bytes.
    ensures in_order { IfOk result (λ page. IfSome page (λ _. IfSome ((M.device medium.old).stored id.now.family id.now.snap) (λ copy. IsInOrder copy.omap))) }
{
    match medium.omap(&id.family, id.snap, last_key(read)) {
        Ok(Some(page)) => Ok(Some(page)),
        Ok(None) => unreachable!(),
        Err(MediumError::Failed) => Ok(None),
        Err(MediumError::Memory) => Err(AllocError),
    }
}
