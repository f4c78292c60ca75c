//! What a member tells of its copies: all have an info, a snapset, a user attribute and both digests.
use pgs_bytes::Bytes;
use pgs_copy::Pairs;
use pgs_info::ObjectInfo;
use pgs_map::Entry;
use pgs_name::ObjectId;
use pgs_request::Version;
use pgs_snapset::{Clones, SnapSet};
use std::alloc::{AllocError, Global};

const SIZE: u64 = 4096;

// The same for all copies, as of objects without omap.
const OMAP_DIGEST: u32 = 0xB798_B438;

// The number that stands for the digest of the data at a place. Each place has its own.
fn data_digest(place: u32) -> u32 {
    place ^ 0x82F6_3B78
}

// At every tenth place the second member has other data.
fn has_other_data(osd: u32, place: u32) -> bool {
    osd == 1 && place % 10 == 0
}

// And halfway between, the third has another user attribute.
fn has_other_attr(osd: u32, place: u32) -> bool {
    osd == 2 && place % 10 == 5
}

fn info(id: ObjectId, place: u32) -> ObjectInfo {
    ObjectInfo {
        id,
        version: Version {
            epoch: 1,
            number: 1,
        },
        prior: Version {
            epoch: 0,
            number: 0,
        },
        size: SIZE,
        data_digest: Some(data_digest(place)),
        omap_digest: None,
        whiteout: false,
    }
}

fn snapset(alloc: Global) -> SnapSet {
    SnapSet {
        seq: 0,
        clones: Clones::new(alloc),
    }
}

// The value of the user attribute.
fn kept_value(alloc: Global, osd: u32, place: u32) -> Result<Bytes, AllocError> {
    if has_other_attr(osd, place) {
        return Bytes::from_slice(alloc, b"another value");
    }
    Bytes::from_slice(alloc, b"a value")
}

fn put(alloc: Global, attrs: &mut Pairs, name: &[u8], value: Bytes) -> Result<(), AllocError> {
    let name = Bytes::from_slice(alloc, name)?;
    attrs.set(name, value)
}

fn attrs(alloc: Global, osd: u32, id: ObjectId, place: u32) -> Result<Pairs, AllocError> {
    let mut attrs = Pairs::new(alloc);
    let recorded = info(id, place).encode(alloc)?;
    put(alloc, &mut attrs, b"_", recorded)?;
    let value = kept_value(alloc, osd, place)?;
    put(alloc, &mut attrs, b"_kept", value)?;
    let clones = snapset(alloc).encode(alloc)?;
    put(alloc, &mut attrs, b"snapset", clones)?;
    Ok(attrs)
}

fn stored_digest(osd: u32, place: u32) -> u32 {
    let digest = data_digest(place);
    if has_other_data(osd, place) {
        !digest
    } else {
        digest
    }
}

/// The entry of a member's copy at a position, which stands at this place among all.
pub fn entry(alloc: Global, osd: u32, id: &ObjectId, place: u32) -> Result<Entry, AllocError> {
    let attrs = attrs(alloc, osd, id.clone()?, place)?;
    let id = id.clone()?;
    Ok(Entry {
        id,
        stat_failed: false,
        read_failed: false,
        size: SIZE,
        attrs,
        data_digest: Some(stored_digest(osd, place)),
        omap_digest: Some(OMAP_DIGEST),
    })
}
