use pgs_bytes::Bytes;
use pgs_chunk::Limits;
use pgs_history::Made;
use pgs_name::Family;
use pgs_op::Write;
use pgs_request::{Op, Payload, ReqId, SnapContext, Snaps};
use pgs_shards::OsdDevice;
use sqlite_items::Items;
use std::alloc::{AllocError, Global};

// A group of the OSDs 2 and 0.
pub fn made(alloc: Global) -> Result<Made, AllocError> {
    let mut members = Items::new(alloc);
    members.push(2)?;
    members.push(0)?;
    Ok(Made {
        number: 0,
        epoch: 4,
        members,
        limits: Limits::usual(),
    })
}

// A device that doesn't fail.
fn device(alloc: Global, osd: u32) -> OsdDevice {
    OsdDevice {
        osd,
        failing: Items::new(alloc),
    }
}

// The devices of the OSDs 2 and 0.
pub fn devices(alloc: Global) -> Result<Vec<OsdDevice>, AllocError> {
    let mut devices = Vec::new(alloc);
    devices.push(device(alloc, 2))?;
    devices.push(device(alloc, 0))?;
    Ok(devices)
}

pub fn family(alloc: Global) -> Result<Family, AllocError> {
    let name = Bytes::from_slice(alloc, b"a")?;
    Family::new(Bytes::new(alloc), Bytes::new(alloc), name)
}

pub const REQUEST: ReqId = ReqId {
    client: 1,
    serial: 7,
};

// A write of three bytes, of a client that knows of no snapshot.
pub fn write(alloc: Global) -> Result<Write, AllocError> {
    let family = family(alloc)?;
    let payload = Payload::Fill { count: 3, byte: 97 };
    let snaps = Snaps::new(alloc);
    Ok(Write {
        id: REQUEST,
        family,
        context: SnapContext { seq: 0, snaps },
        op: Op::Full { payload },
    })
}
