//! What the tests of printed lines share.
use pgs_bytes::Bytes;
use pgs_done::{Done, print};
use pgs_lines::Object;
use std::alloc::{AllocError, Global};

// Whether this is printed.
fn is_line(alloc: Global, done: &Done, wanted: &[u8]) -> Result<bool, AllocError> {
    let mut out = Vec::new(alloc);
    out.extend_from_slice(b"before\n")?;
    print(alloc, done, &mut out)?;
    let mut whole = Vec::new(alloc);
    whole.extend_from_slice(b"before\n")?;
    whole.extend_from_slice(wanted)?;
    whole.push(b'\n')?;
    Ok(out.as_slice() == whole.as_slice())
}

/// Whether this is the line of what was done.
pub fn says(alloc: Global, done: Done, wanted: &[u8]) -> Result<bool, AllocError> {
    let is = is_line(alloc, &done, wanted);
    drop(done);
    is
}

/// An object with no space and no key.
pub fn object(alloc: Global, name: &[u8]) -> Result<Object, AllocError> {
    Ok(Object {
        space: Bytes::new(alloc),
        key: Bytes::new(alloc),
        name: Bytes::from_slice(alloc, name)?,
    })
}
