//! Reading attributes, which stand by ascending names.
ghost use Rattle.std.specs.Prelude.{◌≡◌, true, [], IfOk};
ghost use Rattle.pgs_copy.specs.Pairs.{IsInOrder};
ghost use Rattle.pgs_codec.specs.Fields.{u32, such};
ghost use Rattle.pgs_codec.specs.Answers.{Reads};
ghost use Rattle.pgs_map_encoding.specs.Chains.{read_chain, last_of};
ghost use Rattle.pgs_map_encoding.specs.Entries.{may_be, attr, attrs, is_name_behind};

use crate::outcome::Outcome;
use crate::outcomes::may_be;
use pgs_bytes::Bytes;
use pgs_codec::{FieldError, Reader};
use pgs_copy::Pairs;
use std::alloc::Global;

/// The attributes at the front of what is left, where an outcome allows them.
pub fn take_attrs(alloc: Global, reader: &mut Reader, outcome: Outcome) -> Result<Pairs, FieldError>
    ensures { Reads (λ x. x) reader.new result ((attrs outcome).read reader.old) }
{
    let count = take_count(reader, outcome)?;
    take_all_attrs(alloc, reader, count)
}

fn take_count(reader: &mut Reader, outcome: Outcome) -> Result<u32, FieldError>
    ensures { Reads (λ x. x) reader.new result ((such (may_be outcome) u32).read reader.old) }
{
    let at = reader.place();
    let count = reader.take_u32()?;
    if may_be(outcome, count as u64) {
        return Ok(count);
    }
    Err(FieldError::Bad { at })
}

fn take_all_attrs(alloc: Global, reader: &mut Reader, count: u32) -> Result<Pairs, FieldError>
    ensures { Reads (λ x. x) reader.new result (read_chain attr (last_of []) count reader.old) }
{
    let mut pairs = Pairs::new(alloc);
    for _ in 0..count {
        let (name, value) = take_attr(alloc, reader, &pairs)?;
        pairs.set(name, value)?;
    }
    Ok(pairs)
}

// An attribute, whose name stands behind those before it.
fn take_attr(
    alloc: Global,
    reader: &mut Reader,
    before: &Pairs,
) -> Result<(Bytes, Bytes), FieldError>
    ensures read { Reads (λ x. x) reader.new result ((attr (last_of before.now)).read reader.old) }
    ensures behind { IfOk result (λ p. is_name_behind (last_of before.now) p.0 ≡ true) }
    ensures in_order { IfOk result (λ p. IsInOrder before.now) }
{
    let at = reader.place();
    let name = reader.take_bytes(alloc, u32::MAX)?;
    if !is_name_behind(before, &name) {
        return Err(FieldError::Bad { at });
    }
    let value = reader.take_bytes(alloc, u32::MAX)?;
    Ok((name, value))
}

fn is_name_behind(before: &Pairs, name: &Bytes) -> bool
    ensures behind { result ≡ is_name_behind (last_of before.now) name.now }
    ensures in_order { IsInOrder before.now }
{
    match before.as_map().last_key_value() {
        Some((last, _)) => last < name,
        None => true,
    }
}
