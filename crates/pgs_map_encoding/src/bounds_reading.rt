//! Reading bounds and ranges.
ghost use Rattle.std.specs.Prelude.{◌≡◌};
ghost use Rattle.pgs_name.specs.Bounds as bounds;
ghost use Rattle.pgs_codec.specs.Answers.{Reads};
ghost use Rattle.pgs_codec.specs.Ids.{word, name_beside};
ghost use Rattle.pgs_map_encoding.specs.Bounds.{family, kind, bound, is_below, range};

use pgs_bytes::{Bytes, is_plain};
use pgs_codec::{FieldError, Reader};
use pgs_name::Family;
use pgs_range::{Bound, FamilyRange, compare_bounds};
use std::alloc::Global;

/// The range at the front of what is left. Where its first bound isn't below its second, the second is refused.
pub fn take_range(alloc: Global, reader: &mut Reader) -> Result<FamilyRange, FieldError>
    ensures { Reads (λ x. x) reader.new result (range.read reader.old) }
{
    let from = take_bound(alloc, reader)?;
    let at = reader.place();
    let to = take_bound(alloc, reader)?;
    if is_below(&from, &to) {
        return Ok(FamilyRange { from, to });
    }
    Err(FieldError::Bad { at })
}

/// Whether a bound lies below another.
pub fn is_below(a: &Bound, b: &Bound) -> bool
    ensures { result ≡ is_below a.now b.now }
{
    compare_bounds(a, b).is_lt()
}

fn take_bound(alloc: Global, reader: &mut Reader) -> Result<Bound, FieldError>
    ensures { Reads (λ x. x) reader.new result (bound.read reader.old) }
{
    let kind = take_kind(reader)?;
    if kind == 0 {
        return Ok(Bound::Min);
    }
    if kind == 1 {
        let family = take_family(alloc, reader)?;
        return Ok(Bound::At { family });
    }
    Ok(Bound::Max)
}

fn take_kind(reader: &mut Reader) -> Result<u8, FieldError>
    ensures { Reads (λ x. x) reader.new result (kind.read reader.old) }
{
    let at = reader.place();
    let kind = reader.take_u8()?;
    if kind < 3 {
        return Ok(kind);
    }
    Err(FieldError::Bad { at })
}

fn take_family(alloc: Global, reader: &mut Reader) -> Result<Family, FieldError>
    ensures { Reads (λ x. x) reader.new result (family.read reader.old) }
{
    let space = take_word(alloc, reader, 64)?;
    let key = take_word(alloc, reader, 255)?;
    let name = take_name(alloc, reader, &key)?;
    let family = Family::new(space, key, name)?;
    Ok(family)
}

// A space or a key.
fn take_word(alloc: Global, reader: &mut Reader, most: u32) -> Result<Bytes, FieldError>
    ensures { Reads (λ x. x) reader.new result ((word most).read reader.old) }
{
    let at = reader.place();
    let word = reader.take_bytes(alloc, most)?;
    if is_word(most as usize, word.as_slice()) {
        return Ok(word);
    }
    Err(FieldError::Bad { at })
}

// A name, which isn't the key before it.
fn take_name(alloc: Global, reader: &mut Reader, key: &Bytes) -> Result<Bytes, FieldError>
    ensures { Reads (λ x. x) reader.new result ((name_beside key.now).read reader.old) }
{
    let at = reader.place();
    let name = reader.take_bytes(alloc, 255)?;
    if is_name(name.as_slice()) && key.as_slice() != name.as_slice() {
        return Ok(name);
    }
    Err(FieldError::Bad { at })
}

/// Whether a space or a key may be this text.
pub fn is_word(most: usize, text: &[u8]) -> bool
    ensures { result ≡ bounds.is_word most text.now }
{
    text.len() <= most && is_plain(text) && text != b"-".as_slice()
}

/// Whether a name may be this text.
pub fn is_name(text: &[u8]) -> bool
    ensures { result ≡ bounds.is_name text.now }
{
    1 <= text.len() && text.len() <= 255 && is_plain(text)
}
