//! Spelling fields at the end of a vector. Each call appends its field whole, or leaves the vector as it was.
ghost use Rattle.std.specs.Prelude.{◌≡◌, ◌++◌, ◌<◌, ◌^◌, length, take, OnOk, OnErr};
ghost use Rattle.pgs_codec.specs.Fields.{u8, u32, u64, spelled_text};
ghost use Rattle.pgs_codec.specs.Ids.{id};

use pgs_name::ObjectId;
use std::alloc::AllocError;

/// Appends a byte.
pub fn put_u8(into: &mut Vec<u8>, value: u8) -> Result<(), AllocError>
    ensures ok { OnOk result (into.new.items ≡ into.old.items ++ u8.spell value) }
    ensures err { OnErr result (into.new.items ≡ into.old.items) }
{
    into.push(value)?;
    Ok(())
}

/// Appends the four bytes of a number, the lowest first.
pub fn put_u32(into: &mut Vec<u8>, value: u32) -> Result<(), AllocError>
    ensures ok { OnOk result (into.new.items ≡ into.old.items ++ u32.spell value) }
    ensures err { OnErr result (into.new.items ≡ into.old.items) }
{
    into.extend_from_slice(&value.to_le_bytes())
}

/// Appends the eight bytes of a number, the lowest first.
pub fn put_u64(into: &mut Vec<u8>, value: u64) -> Result<(), AllocError>
    ensures ok { OnOk result (into.new.items ≡ into.old.items ++ u64.spell value) }
    ensures err { OnErr result (into.new.items ≡ into.old.items) }
{
    into.extend_from_slice(&value.to_le_bytes())
}

/// Appends the length of a string of bytes, and the bytes. A length that four bytes can't tell is refused as want of
/// memory is.
pub fn put_bytes(into: &mut Vec<u8>, value: &[u8]) -> Result<(), AllocError>
    ensures ok { OnOk result (into.new.items ≡ into.old.items ++ spelled_text value.now) }
    ensures within { OnOk result (length value.now < 2 ^ 32) }
    ensures err { OnErr result (into.new.items ≡ into.old.items) }
{
    if value.len() > u32::MAX as usize {
        return Err(AllocError);
    }
    into.reserve(4 + value.len())?;
    into.extend_from_slice(&(value.len() as u32).to_le_bytes())?;
    into.extend_from_slice(value)
}

/// Appends a position: its space, its key as it is kept (empty where it is the name), its name and its snap.
pub fn put_id(into: &mut Vec<u8>, value: &ObjectId) -> Result<(), AllocError>
    ensures ok { OnOk result (into.new.items ≡ into.old.items ++ id.spell value.now) }
    ensures err { OnErr result (into.new.items ≡ into.old.items) }
{
    let before = into.len();
    let put = put_parts(into, value);
    if put.is_err() {
        into.truncate(before);
    }
    put
}

// What was there stays in front, whatever else happens.
fn put_parts(into: &mut Vec<u8>, value: &ObjectId) -> Result<(), AllocError>
    ensures ok { OnOk result (into.new.items ≡ into.old.items ++ id.spell value.now) }
    ensures front { take (length into.old.items) into.new.items ≡ into.old.items }
{
    put_bytes(into, value.family.space())?;
    put_bytes(into, value.family.kept_key())?;
    put_bytes(into, value.family.name())?;
    put_u64(into, value.snap)
}
