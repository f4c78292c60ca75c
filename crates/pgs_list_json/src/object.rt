//! Names, snaps, digests and versions, as both lists have them.
ghost use Rattle.std.specs.Prelude.{◌≡◌, IfOk, OnOk};
ghost use Rattle.serde_json.specs.View.{view, members_view};
ghost use Rattle.pgs_list_json.specs.Object.{text_data, snap_data, digest_data, version_data, put_name as with_name};

use pgs_name::{HEAD, ObjectId};
use pgs_request::Version;
use serde_json::{Map, Value, put};
use std::alloc::{AllocError, Global};

/// Bytes of a name, each as the character of its number.
pub fn text_value(alloc: Global, bytes: &[u8]) -> Result<Value, AllocError>
    ensures { IfOk result (λ value. view value ≡ text_data bytes.now) }
{
    let mut text = String::new(alloc);
    for byte in bytes {
        text.push(char::from(*byte))?;
    }
    Ok(Value::String(text))
}

/// A snap by its number, and that of a head by the word.
pub fn snap_value(alloc: Global, snap: u64) -> Result<Value, AllocError>
    ensures { IfOk result (λ value. view value ≡ snap_data snap) }
{
    if snap == HEAD {
        return Value::try_from_str(alloc, "head");
    }
    Ok(Value::from(snap))
}

/// A digest by eight digits.
pub fn digest_value(alloc: Global, digest: u32) -> Result<Value, AllocError>
    ensures { IfOk result (λ value. view value ≡ digest_data digest) }
{
    let text = format!(in alloc; "0x{digest:08x}")?;
    Ok(Value::String(text))
}

/// A version by its epoch and its number.
pub fn version_value(alloc: Global, version: Version) -> Result<Value, AllocError>
    ensures { IfOk result (λ value. view value ≡ version_data version) }
{
    let text = format!(in alloc; "{}'{}", version.epoch, version.number)?;
    Ok(Value::String(text))
}

/// Puts the members of a name into an object.
#[tactic(auto, unfolding(crate::specs::Object::put_name))]
pub fn put_name(
    alloc: Global,
    map: &mut Map<String, Value>,
    id: &ObjectId,
) -> Result<(), AllocError>
    ensures { OnOk result (members_view map.new.entries ≡ with_name id.now (members_view map.old.entries)) }
{
    let locator = text_value(alloc, id.family.kept_key())?;
    put(map, alloc, "locator", locator)?;
    let name = text_value(alloc, id.family.name())?;
    put(map, alloc, "name", name)?;
    let space = text_value(alloc, id.family.space())?;
    put(map, alloc, "nspace", space)?;
    let snap = snap_value(alloc, id.snap)?;
    put(map, alloc, "snap", snap)
}
