//! The lists that operators see, byte for byte.
use crate::{list_obj, list_snap};
use pgs_copy::Pairs;
use pgs_find::{
    ObjectError, ObjectErrors, ShardError, ShardErrors, SnapError, SnapErrors, SnapFinding,
};
use pgs_incons::{Chosen, Finding, ShardFinding};
use pgs_info::ObjectInfo;
use pgs_map::Entry;
use pgs_name::{HEAD, NameError, ObjectId};
use pgs_request::Version;
use sqlite_items::Items;
use std::alloc::{AllocError, Global};
use std::test::Fail;

const FLIPPED: &str =
    "{\"epoch\":4,\"inconsistents\":[{\"errors\":[\"data_digest_mismatch\"],\"object\":{\"locator\":\"\",\"name\":\"a\",\"nspace\":\"\",\"snap\":\"head\",\"version\":1},\"selected_object_info\":{\"data_digest\":\"0x1cf96d7c\",\"prior_version\":\"0'0\",\"size\":9,\"version\":\"4'1\",\"whiteout\":false},\"shards\":[{\"data_digest\":\"0x1cf96d7c\",\"errors\":[],\"omap_digest\":\"0xb798b438\",\"osd\":0,\"primary\":true,\"size\":9},{\"data_digest\":\"0x1cf96d7c\",\"errors\":[],\"omap_digest\":\"0xb798b438\",\"osd\":1,\"primary\":false,\"size\":9},{\"data_digest\":\"0xee92ee7f\",\"errors\":[\"data_digest_mismatch_info\"],\"omap_digest\":\"0xb798b438\",\"osd\":2,\"primary\":false,\"size\":9}],\"union_shard_errors\":[\"data_digest_mismatch_info\"]}]}";

const SNAPS: &str =
    "{\"epoch\":4,\"inconsistents\":[{\"errors\":[\"headless\"],\"locator\":\"k\",\"name\":\"f1\",\"nspace\":\"\",\"snap\":1},{\"errors\":[\"clone_missing\"],\"locator\":\"k\",\"missing\":[1],\"name\":\"f2\",\"nspace\":\"\",\"snap\":\"head\"},{\"errors\":[\"extra_clones\"],\"extra_clones\":[7],\"locator\":\"k\",\"name\":\"f3\",\"nspace\":\"\",\"snap\":\"head\"}]}";

// The digest of the good copies' data, that of the flipped one's, and that of their omaps.
const DATA: u32 = 0x1cf9_6d7c;

const OTHER: u32 = 0xee92_ee7f;

const OMAP: u32 = 0xb798_b438;

fn head(alloc: Global) -> Result<ObjectId, NameError> {
    ObjectId::new(alloc, b"", b"", b"a", HEAD)
}

fn info(alloc: Global) -> Result<ObjectInfo, NameError> {
    let id = head(alloc)?;
    Ok(ObjectInfo {
        id,
        version: Version {
            epoch: 4,
            number: 1,
        },
        prior: Version {
            epoch: 0,
            number: 0,
        },
        size: 9,
        data_digest: Some(DATA),
        omap_digest: None,
        whiteout: false,
    })
}

fn entry(alloc: Global) -> Result<Entry, NameError> {
    let id = head(alloc)?;
    Ok(Entry {
        id,
        stat_failed: false,
        read_failed: false,
        size: 9,
        attrs: Pairs::new(alloc),
        data_digest: Some(DATA),
        omap_digest: Some(OMAP),
    })
}

fn chosen(alloc: Global) -> Result<Chosen, NameError> {
    let info = info(alloc)?;
    let entry = entry(alloc)?;
    Ok(Chosen {
        osd: 0,
        info,
        entry,
    })
}

fn shard(osd: u32, flipped: bool) -> ShardFinding {
    let mut errors = ShardErrors::none();
    errors.note(ShardError::DataDigestMismatchInfo, flipped);
    ShardFinding {
        osd,
        primary: osd == 0,
        errors,
        size: Some(9),
        data_digest: Some(if flipped { OTHER } else { DATA }),
        omap_digest: Some(OMAP),
    }
}

// In the acting order 0, 2, 1.
fn shards(alloc: Global) -> Result<Items<ShardFinding>, AllocError> {
    let shards = [shard(0, false), shard(2, true), shard(1, false)];
    Items::from_slice(alloc, &shards)
}

fn flipped(alloc: Global) -> Result<Finding, NameError> {
    let id = head(alloc)?;
    let chosen = chosen(alloc)?;
    let shards = shards(alloc)?;
    let mut errors = ObjectErrors::none();
    errors.note(ObjectError::DataDigestMismatch, true);
    Ok(Finding {
        id,
        version: 9,
        errors,
        shards,
        chosen: Some(chosen),
    })
}

fn findings(alloc: Global) -> Result<Items<Finding>, NameError> {
    let mut list = Items::new(alloc);
    let finding = flipped(alloc)?;
    list.push(finding)?;
    Ok(list)
}

fn is_list_obj(alloc: Global, findings: &[Finding], wanted: &str) -> Result<bool, AllocError> {
    let text = list_obj(alloc, 4, findings)?;
    Ok(text.as_slice() == wanted.as_bytes())
}

#[test]
fn inconsistent_objects(rt: HostRuntime) -> Result<(), Fail> {
    let findings = findings(rt.alloc())?;
    assert!(rt; is_list_obj(rt.alloc(), findings.as_slice(), FLIPPED)?);
    Ok(())
}

fn snap_finding(
    alloc: Global,
    name: &[u8],
    snap: u64,
    error: SnapError,
) -> Result<SnapFinding, NameError> {
    let id = ObjectId::new(alloc, b"", b"k", name, snap)?;
    let mut errors = SnapErrors::none();
    errors.note(error, true);
    let missing = Items::from_slice(alloc, &[1])?;
    let extra = Items::from_slice(alloc, &[7])?;
    Ok(SnapFinding {
        id,
        errors,
        missing,
        extra,
    })
}

fn put_snap(
    alloc: Global,
    list: &mut Items<SnapFinding>,
    name: &[u8],
    snap: u64,
    error: SnapError,
) -> Result<(), NameError> {
    let finding = snap_finding(alloc, name, snap, error)?;
    list.push(finding)?;
    Ok(())
}

fn snap_findings(alloc: Global) -> Result<Items<SnapFinding>, NameError> {
    let mut list = Items::new(alloc);
    put_snap(alloc, &mut list, b"f1", 1, SnapError::Headless)?;
    put_snap(alloc, &mut list, b"f2", HEAD, SnapError::CloneMissing)?;
    put_snap(alloc, &mut list, b"f3", HEAD, SnapError::ExtraClones)?;
    Ok(list)
}

fn is_list_snap(alloc: Global, findings: &[SnapFinding], wanted: &str) -> Result<bool, AllocError> {
    let text = list_snap(alloc, 4, findings)?;
    Ok(text.as_slice() == wanted.as_bytes())
}

#[test]
fn inconsistent_snapshots(rt: HostRuntime) -> Result<(), Fail> {
    let findings = snap_findings(rt.alloc())?;
    assert!(rt; is_list_snap(rt.alloc(), findings.as_slice(), SNAPS)?);
    Ok(())
}
