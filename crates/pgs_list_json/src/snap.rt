//! The list of heads and clones of which the snapshots are inconsistent.
ghost use Rattle.std.specs.Prelude.{◌≡◌, IfOk, OnOk};
ghost use Rattle.serde_json.specs.View.{view, members_view};
ghost use Rattle.pgs_list_json.specs.Members.{array_of, numbers_data, put_where, only_where};
ghost use Rattle.pgs_list_json.specs.Snap.{snap_finding_data, list_snap_data, list_snap_text};

use crate::object::put_name;
use crate::words::snap_words;
use pgs_bytes::Bytes;
use pgs_find::{SnapError, SnapFinding};
use serde_json::{Map, Value, push, put};
use sqlite_items::Items;
use std::alloc::{AllocError, Global};

fn numbers_value(alloc: Global, numbers: &[u64]) -> Result<Value, AllocError>
    ensures { IfOk result (λ value. view value ≡ numbers_data numbers.now) }
{
    let mut list = Vec::new(alloc);
    for number in numbers {
        push(&mut list, Value::from(*number))?;
    }
    Ok(Value::Array(list))
}

// Puts numbers, where something is so.
fn put_numbers_where(
    alloc: Global,
    map: &mut Map<String, Value>,
    key: &str,
    so: bool,
    numbers: &Items<u64>,
) -> Result<(), AllocError>
    ensures { OnOk result (members_view map.new.entries ≡ put_where key.now (only_where so (numbers_data numbers.now)) (members_view map.old.entries)) }
{
    if !so {
        return Ok(());
    }
    let value = numbers_value(alloc, numbers.as_slice())?;
    put(map, alloc, key, value)
}

fn finding_value(alloc: Global, finding: &SnapFinding) -> Result<Value, AllocError>
    ensures { IfOk result (λ value. view value ≡ snap_finding_data finding.now) }
{
    let errors = snap_words(alloc, finding.errors)?;
    let has_extra = finding.errors.has(SnapError::ExtraClones);
    let lacks_some = finding.errors.has(SnapError::CloneMissing);
    let mut map = Map::new(alloc);
    put(&mut map, alloc, "errors", errors)?;
    put_name(alloc, &mut map, &finding.id)?;
    put_numbers_where(alloc, &mut map, "extra_clones", has_extra, &finding.extra)?;
    put_numbers_where(alloc, &mut map, "missing", lacks_some, &finding.missing)?;
    Ok(Value::Object(map))
}

fn findings_value(alloc: Global, findings: &[SnapFinding]) -> Result<Value, AllocError>
    ensures { IfOk result (λ value. view value ≡ array_of snap_finding_data findings.now) }
{
    let mut list = Vec::new(alloc);
    for finding in findings {
        let value = finding_value(alloc, finding)?;
        push(&mut list, value)?;
    }
    Ok(Value::Array(list))
}

fn list_value(alloc: Global, epoch: u32, findings: &[SnapFinding]) -> Result<Value, AllocError>
    ensures { IfOk result (λ value. view value ≡ list_snap_data epoch findings.now) }
{
    let list = findings_value(alloc, findings)?;
    let mut map = Map::new(alloc);
    put(&mut map, alloc, "epoch", Value::from(epoch))?;
    put(&mut map, alloc, "inconsistents", list)?;
    Ok(Value::Object(map))
}

/// What operators see as `rados list-inconsistent-snapset`: one object a finding, in the order given.
pub fn list_snap(alloc: Global, epoch: u32, findings: &[SnapFinding]) -> Result<Bytes, AllocError>
    ensures { IfOk result (λ text. text ≡ list_snap_text epoch findings.now) }
{
    let value = list_value(alloc, epoch, findings)?;
    let text = value.to_vec(alloc)?;
    Ok(Bytes::from_vec(text))
}
