//! The list of objects of which copies are inconsistent.
ghost use Rattle.std.specs.Prelude.{◌≡◌, IfOk, OnOk, option_map, codes, List};
ghost use Rattle.serde_json.specs.View.{view, members_view};
ghost use Rattle.pgs_list_json.specs.Members.{array_of, put_where};
ghost use Rattle.pgs_list_json.specs.Obj.{object_data, info_data, chosen_data, finding_data, list_obj_data, list_obj_text, by_osd, AreByOsd};
ghost use Rattle.pgs_list_json.specs.Obj as defined;
ghost use Rattle.pgs_incons.specs.declared.shard_finding.ShardFinding.{ShardFinding};

use crate::members::put_digest;
use crate::object::{put_name, version_value};
use crate::shards::shards_value;
use crate::words::{object_words, union_words};
use pgs_bytes::Bytes;
use pgs_incons::{Chosen, Finding};
use pgs_info::ObjectInfo;
use serde_json::{Map, Value, push, put};
use std::alloc::{AllocError, Global};

// The number of the chosen copy's version, 0 where none was chosen.
fn chosen_number(chosen: &Option<Chosen>) -> u64
    ensures { result ≡ defined.chosen_number chosen.now }
{
    match chosen {
        Some(chosen) => chosen.info.version.number,
        None => 0,
    }
}

// Which object it is.
fn object_value(alloc: Global, finding: &Finding) -> Result<Value, AllocError>
    ensures { IfOk result (λ value. view value ≡ object_data finding.now) }
{
    let number = chosen_number(&finding.chosen);
    let mut map = Map::new(alloc);
    put_name(alloc, &mut map, &finding.id)?;
    put(&mut map, alloc, "version", Value::from(number))?;
    Ok(Value::Object(map))
}

// What the chosen copy records of the object.
fn info_value(alloc: Global, info: &ObjectInfo) -> Result<Value, AllocError>
    ensures { IfOk result (λ value. view value ≡ info_data info.now) }
{
    let prior = version_value(alloc, info.prior)?;
    let version = version_value(alloc, info.version)?;
    let mut map = Map::new(alloc);
    put_digest(alloc, &mut map, "data_digest", info.data_digest)?;
    put_digest(alloc, &mut map, "omap_digest", info.omap_digest)?;
    put(&mut map, alloc, "prior_version", prior)?;
    put(&mut map, alloc, "size", Value::from(info.size))?;
    put(&mut map, alloc, "version", version)?;
    put(&mut map, alloc, "whiteout", Value::from(info.whiteout))?;
    Ok(Value::Object(map))
}

// Puts what the chosen copy records, where one was chosen.
fn put_chosen(
    alloc: Global,
    map: &mut Map<String, Value>,
    chosen: &Option<Chosen>,
) -> Result<(), AllocError>
    ensures { OnOk result (members_view map.new.entries ≡ put_where (codes "selected_object_info") (option_map chosen_data chosen.now) (members_view map.old.entries)) }
{
    match chosen {
        Some(chosen) => {
            let info = info_value(alloc, &chosen.info)?;
            put(map, alloc, "selected_object_info", info)
        }
        None => Ok(()),
    }
}

fn finding_value(alloc: Global, finding: &Finding) -> Result<Value, AllocError>
    ensures { IfOk result (λ value. view value ≡ finding_data finding.now) }
{
    let errors = object_words(alloc, finding.errors)?;
    let object = object_value(alloc, finding)?;
    let found = finding.shards.as_slice();
    let shards = shards_value(alloc, found)?;
    let union = union_words(alloc, found)?;
    let mut map = Map::new(alloc);
    put(&mut map, alloc, "errors", errors)?;
    put(&mut map, alloc, "object", object)?;
    put_chosen(alloc, &mut map, &finding.chosen)?;
    put(&mut map, alloc, "shards", shards)?;
    put(&mut map, alloc, "union_shard_errors", union)?;
    Ok(Value::Object(map))
}

fn findings_value(alloc: Global, findings: &[Finding]) -> Result<Value, AllocError>
    ensures { IfOk result (λ value. view value ≡ array_of finding_data findings.now) }
{
    let mut list = Vec::new(alloc);
    for finding in findings {
        let value = finding_value(alloc, finding)?;
        push(&mut list, value)?;
    }
    Ok(Value::Array(list))
}

fn list_value(alloc: Global, epoch: u32, findings: &[Finding]) -> Result<Value, AllocError>
    ensures { IfOk result (λ value. view value ≡ list_obj_data epoch findings.now) }
{
    let list = findings_value(alloc, findings)?;
    let mut map = Map::new(alloc);
    put(&mut map, alloc, "epoch", Value::from(epoch))?;
    put(&mut map, alloc, "inconsistents", list)?;
    Ok(Value::Object(map))
}

/// What operators see as `rados list-inconsistent-obj`: one object a finding, in the order given, and of each finding its shards by
/// ascending OSD.
pub fn list_obj(alloc: Global, epoch: u32, findings: &[Finding]) -> Result<Bytes, AllocError>
    ensures text { IfOk result (λ text. text ≡ list_obj_text epoch findings.now) }

    // The order of shards in that text is theirs by ascending OSD.
    ensures order { (shards : List ShardFinding) → AreByOsd shards (by_osd shards) }
{
    let value = list_value(alloc, epoch, findings)?;
    let text = value.to_vec(alloc)?;
    Ok(Bytes::from_vec(text))
}
