//! What the reading calls tell of a copy, if it is there.
ghost use Rattle.std.specs.Prelude.{◌≡◌, length, take, drop, option_map, IfOk, IfSome};
ghost use Rattle.std.specs.Option.{option_copied};
ghost use Rattle.pgs_copy.specs.Pairs.{IsInOrder};
ghost use Rattle.pgs_medium.specs.Reads as defined;

use crate::omap_page::OmapPage;
use crate::paging::page_behind;
use pgs_bytes::Bytes;
use pgs_copy::{ObjCopy, Pairs};
use std::alloc::{AllocError, Global};

/// How many bytes its data has.
pub fn size_of(copy: Option<&ObjCopy>) -> Option<u64>
    ensures { result ≡ defined.size_of (option_copied copy.entry) }
{
    match copy {
        Some(copy) => Some(copy.bytes.len() as u64),
        None => None,
    }
}

/// Its attributes.
pub fn attrs_of(copy: Option<&ObjCopy>) -> Result<Option<Pairs>, AllocError>
    ensures { IfOk result (λ attrs. attrs ≡ defined.attrs_of (option_copied copy.entry)) }
{
    match copy {
        Some(copy) => Ok(Some(copy.attrs.clone()?)),
        None => Ok(None),
    }
}

/// At most so many bytes of its data, from a place on.
pub fn bytes_of(
    alloc: Global,
    copy: Option<&ObjCopy>,
    from: u64,
    count: u64,
) -> Result<Option<Bytes>, AllocError>
    ensures { IfOk result (λ bytes. bytes ≡ defined.bytes_of from count (option_copied copy.entry)) }
{
    match copy {
        Some(copy) => {
            let stride = stride(copy.bytes.as_slice(), from, count);
            Ok(Some(Bytes::from_slice(alloc, stride)?))
        }
        None => Ok(None),
    }
}

// At most so many bytes from a place on.
#[tactic(auto, using(crate::proofs::Strides::strides))]
fn stride(bytes: &[u8], from: u64, count: u64) -> &[u8]
    ensures { result.now ≡ take count (drop from bytes.now) }
{
    let behind = behind(bytes, from);
    if count >= behind.len() as u64 {
        return behind;
    }
    &behind[..count as usize]
}

// The bytes from a place on.
#[tactic(auto, using(crate::proofs::Strides::strides))]
fn behind(bytes: &[u8], from: u64) -> &[u8]
    ensures { result.now ≡ drop from bytes.now }
{
    if from >= bytes.len() as u64 {
        return &bytes[bytes.len()..];
    }
    &bytes[from as usize..]
}

/// The page of its omap behind a key, or the first where none is given.
pub fn page_of(
    alloc: Global,
    copy: Option<&ObjCopy>,
    key: Option<&Bytes>,
) -> Result<Option<OmapPage>, AllocError>
    ensures page { IfOk result (λ page. page ≡ defined.page_of (option_copied key.entry) (option_copied copy.entry)) }
    ensures in_order { IfOk result (λ _. IfSome (option_copied copy.entry) (λ c. IsInOrder c.omap)) }
{
    match copy {
        Some(copy) => Ok(Some(page_behind(alloc, copy, key)?)),
        None => Ok(None),
    }
}
