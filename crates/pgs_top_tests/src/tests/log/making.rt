use pgs_bytes::Bytes;
use pgs_name::Family;
use pgs_op::Write;
use pgs_request::{Op, Payload, ReqId, SnapContext, Snaps};
use std::alloc::{AllocError, Global};

/// The family of a name with a space and a key.
pub fn family(alloc: Global, space: &[u8], key: &[u8], name: &[u8]) -> Result<Family, AllocError> {
    let space = Bytes::from_slice(alloc, space)?;
    let key = Bytes::from_slice(alloc, key)?;
    let name = Bytes::from_slice(alloc, name)?;
    Family::new(space, key, name)
}

/// A write that does this to an object, of a client that knows of no snapshot.
pub fn written(alloc: Global, name: &[u8], op: Op) -> Result<Write, AllocError> {
    let family = match family(alloc, b"", b"", name) {
        Ok(family) => family,
        Err(AllocError) => {
            drop(op);
            return Err(AllocError);
        }
    };
    Ok(Write {
        id: ReqId {
            client: 1,
            serial: 1,
        },
        family,
        context: SnapContext {
            seq: 0,
            snaps: Snaps::new(alloc),
        },
        op,
    })
}

/// A write of so many bytes.
pub fn write(alloc: Global, name: &[u8], count: u32) -> Result<Write, AllocError> {
    let payload = Payload::Fill { count, byte: 7 };
    written(alloc, name, Op::Full { payload })
}
