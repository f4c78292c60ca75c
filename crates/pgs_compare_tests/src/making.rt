//! Entries and scrub maps of sketches.
ghost use Rattle.std.specs.Prelude.{◌≡◌, true, IfOk, OnOk};
ghost use Rattle.std.specs.List.{list_all};
ghost use Rattle.pgs_map.specs.Entries.{AreAscending};
ghost use Rattle.pgs_name.specs.Positions.{is_before as is_before_of};

use crate::sketch::{InfoAttr, InfoSketch, Listed, Sketch, SnapsetAttr};
use pgs_bytes::Bytes;
use pgs_copy::Pairs;
use pgs_info::ObjectInfo;
use pgs_map::{Entry, ScrubMap};
use pgs_name::{NameError, ObjectId, is_before};
use pgs_range::{Bound, FamilyRange};
use pgs_request::{Snaps, Version};
use pgs_snapset::{CloneFacts, Clones, SnapSet};
use sqlite_items::Items;
use std::alloc::{AllocError, Global};
use std::test::Fail;

/// The copies that an OSD has, at most three, in the order of their positions.
#[derive(Clone, Copy, Drop)]
pub struct Copies {
    pub first: Option<Sketch>,
    pub second: Option<Sketch>,
    pub third: Option<Sketch>,
}

fn id_at(alloc: Global, snap: u64) -> Result<ObjectId, NameError> {
    ObjectId::new(alloc, b"", b"", b"a", snap)
}

fn info_text(alloc: Global, info: InfoSketch) -> Result<Bytes, NameError> {
    let id = id_at(alloc, info.snap)?;
    let info = ObjectInfo {
        id,
        version: info.version,
        prior: Version {
            epoch: 4,
            number: info.prior,
        },
        size: info.size,
        data_digest: info.data_digest,
        omap_digest: info.omap_digest,
        whiteout: false,
    };
    Ok(info.encode(alloc)?)
}

fn list_clone(
    alloc: Global,
    clones: &mut Clones,
    listed: Option<Listed>,
) -> Result<(), AllocError> {
    let Some((snap, size)) = listed else {
        return Ok(());
    };
    let mut snaps = Snaps::new(alloc);
    snaps.push(snap)?;
    clones.push(CloneFacts { snap, size, snaps })
}

fn snapset_text(alloc: Global, seq: u64, listed: [Option<Listed>; 3]) -> Result<Bytes, AllocError> {
    let [first, second, third] = listed;
    let mut clones = Clones::new(alloc);
    list_clone(alloc, &mut clones, first)?;
    list_clone(alloc, &mut clones, second)?;
    list_clone(alloc, &mut clones, third)?;
    SnapSet { seq, clones }.encode(alloc)
}

// A text that spells neither an info nor a snapset.
fn garbled(alloc: Global) -> Result<Bytes, AllocError> {
    Bytes::from_slice(alloc, b"garbled")
}

fn info_of(alloc: Global, attr: InfoAttr) -> Result<Option<Bytes>, NameError> {
    match attr {
        InfoAttr::Absent => Ok(None),
        InfoAttr::Garbled => Ok(Some(garbled(alloc)?)),
        InfoAttr::Spelled { info } => Ok(Some(info_text(alloc, info)?)),
    }
}

fn snapset_of(alloc: Global, attr: SnapsetAttr) -> Result<Option<Bytes>, AllocError> {
    match attr {
        SnapsetAttr::Absent => Ok(None),
        SnapsetAttr::Garbled => Ok(Some(garbled(alloc)?)),
        SnapsetAttr::Spelled { seq, clones } => Ok(Some(snapset_text(alloc, seq, clones)?)),
    }
}

fn color_of(alloc: Global, color: Option<&str>) -> Result<Option<Bytes>, AllocError> {
    match color {
        Some(color) => Ok(Some(Bytes::from_slice(alloc, color.as_bytes())?)),
        None => Ok(None),
    }
}

fn more_of(alloc: Global, more: bool) -> Result<Option<Bytes>, AllocError> {
    if more {
        return Ok(Some(Bytes::from_slice(alloc, b"more")?));
    }
    Ok(None)
}

// Sets an attribute, where it is there.
fn set(
    alloc: Global,
    attrs: &mut Pairs,
    name: &[u8],
    value: Option<Bytes>,
) -> Result<(), AllocError> {
    if let Some(value) = value {
        let name = Bytes::from_slice(alloc, name)?;
        attrs.set(name, value)?;
    }
    Ok(())
}

fn attrs_of(alloc: Global, sketch: &Sketch) -> Result<Pairs, NameError> {
    let mut attrs = Pairs::new(alloc);
    let info = info_of(alloc, sketch.info)?;
    set(alloc, &mut attrs, b"_", info)?;
    let snapset = snapset_of(alloc, sketch.snapset)?;
    set(alloc, &mut attrs, b"snapset", snapset)?;
    let color = color_of(alloc, sketch.color)?;
    set(alloc, &mut attrs, b"_color", color)?;
    let more = more_of(alloc, sketch.more)?;
    set(alloc, &mut attrs, b"_more", more)?;
    Ok(attrs)
}

fn entry_of(alloc: Global, sketch: &Sketch) -> Result<Entry, NameError> {
    let id = id_at(alloc, sketch.snap)?;
    let attrs = attrs_of(alloc, sketch)?;
    Ok(Entry {
        id,
        stat_failed: sketch.stat_failed,
        read_failed: sketch.read_failed,
        size: sketch.size,
        attrs,
        data_digest: sketch.data_digest,
        omap_digest: sketch.omap_digest,
    })
}

fn stand_before(entries: &Items<Entry>, id: &ObjectId) -> bool
    ensures { result ≡ list_all (λ entry. is_before_of entry.id id.now) entries.now }
{
    are_before(entries.as_slice(), id)
}

fn are_before(entries: &[Entry], id: &ObjectId) -> bool
    ensures { result ≡ list_all (λ entry. is_before_of entry.id id.now) entries.now }
{
    entries.iter().all(|entry| is_before(&entry.id, id))
}

#[tactic(auto, using(crate::proofs::Ascending::pushed))]
fn push_behind(entries: &mut Items<Entry>, entry: Entry) -> Result<(), AllocError>
    requires ascend { AreAscending entries.old }
    requires before { list_all (λ other. is_before_of other.id entry.id) entries.old ≡ true }
    ensures { OnOk result (AreAscending entries.new) }
{
    entries.push(entry)?;
    Ok(())
}

// Puts an entry behind the others. It is refused where it doesn't stand behind all of them.
fn put(entries: &mut Items<Entry>, entry: Entry) -> Result<(), Fail>
    requires { AreAscending entries.old }
    ensures { OnOk result (AreAscending entries.new) }
{
    if stand_before(entries, &entry.id) {
        return Ok(push_behind(entries, entry)?);
    }
    Err(Fail::from("the positions don't ascend"))
}

fn put_sketch(alloc: Global, entries: &mut Items<Entry>, sketch: Option<Sketch>) -> Result<(), Fail>
    requires { AreAscending entries.old }
    ensures { OnOk result (AreAscending entries.new) }
{
    let Some(sketch) = sketch else {
        return Ok(());
    };
    let entry = entry_of(alloc, &sketch)?;
    put(entries, entry)
}

#[tactic(auto, using(crate::proofs::Ascending::none_ascend))]
fn entries_of(alloc: Global, copies: Copies) -> Result<Items<Entry>, Fail>
    ensures { IfOk result (λ entries. AreAscending entries) }
{
    let mut entries = Items::new(alloc);
    put_sketch(alloc, &mut entries, copies.first)?;
    put_sketch(alloc, &mut entries, copies.second)?;
    put_sketch(alloc, &mut entries, copies.third)?;
    Ok(entries)
}

/// The map of an OSD that has these copies.
pub fn map_of(alloc: Global, osd: u32, copies: Copies) -> Result<ScrubMap, Fail>
    ensures { IfOk result (λ map. AreAscending map.entries) }
{
    let entries = entries_of(alloc, copies)?;
    Ok(ScrubMap {
        osd,
        serial: 1,
        chunk: 1,
        needed: 2,
        applied: 2,
        range: FamilyRange {
            from: Bound::Min,
            to: Bound::Max,
        },
        entries,
    })
}
