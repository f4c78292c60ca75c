//! Reading an object info, part by part.
ghost use Rattle.std.specs.Prelude.{◌≡◌};
ghost use Rattle.pgs_codec.specs.Fields.{u32, where_so};
ghost use Rattle.pgs_codec.specs.Answers.{Reads};
ghost use Rattle.pgs_info.specs.Flags.{flags, has_bit, flags_in};
ghost use Rattle.pgs_info.specs.Info.{version, sizes, digests, marks, parts, info};

use crate::flags::{DATA_DIGEST, Flags, OMAP_DIGEST, WHITEOUT};
use crate::info::ObjectInfo;
use pgs_codec::{FieldError, Reader};
use pgs_request::Version;
use std::alloc::Global;

/// The info at the front of what is left.
pub fn take_info(alloc: Global, reader: &mut Reader) -> Result<ObjectInfo, FieldError>
    ensures { Reads (λ x. x) reader.new result (info.read reader.old) }
{
    take_marks(reader)?;
    let id = reader.take_id(alloc)?;
    let (version, prior, size) = take_sizes(reader)?;
    let (flags, data_digest, omap_digest) = take_digests(reader)?;
    Ok(ObjectInfo {
        id,
        version,
        prior,
        size,
        data_digest,
        omap_digest,
        whiteout: flags.whiteout,
    })
}

fn take_marks(reader: &mut Reader) -> Result<(), FieldError>
    ensures { Reads (λ x. (tt, tt)) reader.new result (marks.read reader.old) }
{
    reader.take_fixed(0x49)?;
    reader.take_fixed(1)
}

fn take_sizes(reader: &mut Reader) -> Result<(Version, Version, u64), FieldError>
    ensures { Reads (λ x. (x.0, (x.1, x.2))) reader.new result (sizes.read reader.old) }
{
    let version = take_version(reader)?;
    let prior = take_version(reader)?;
    let size = reader.take_u64()?;
    Ok((version, prior, size))
}

fn take_version(reader: &mut Reader) -> Result<Version, FieldError>
    ensures { Reads (λ x. x) reader.new result (version.read reader.old) }
{
    let epoch = reader.take_u32()?;
    let number = reader.take_u64()?;
    Ok(Version { epoch, number })
}

fn take_digests(reader: &mut Reader) -> Result<(Flags, Option<u32>, Option<u32>), FieldError>
    ensures { Reads (λ x. (x.0, (x.1, x.2))) reader.new result (digests.read reader.old) }
{
    let flags = take_flags(reader)?;
    let data_digest = take_digest(reader, flags.data_digest)?;
    let omap_digest = take_digest(reader, flags.omap_digest)?;
    Ok((flags, data_digest, omap_digest))
}

fn take_flags(reader: &mut Reader) -> Result<Flags, FieldError>
    ensures { Reads (λ x. x) reader.new result (flags.read reader.old) }
{
    let at = reader.place();
    let byte = reader.take_u8()?;
    if byte < 8 {
        return Ok(flags_in(byte));
    }
    Err(FieldError::Bad { at })
}

fn flags_in(byte: u8) -> Flags
    ensures { result ≡ flags_in byte }
{
    Flags {
        whiteout: has_bit(byte, WHITEOUT),
        data_digest: has_bit(byte, DATA_DIGEST),
        omap_digest: has_bit(byte, OMAP_DIGEST),
    }
}

fn has_bit(byte: u8, bit: u8) -> bool
    ensures { result ≡ has_bit byte bit }
{
    byte & bit != 0
}

// A digest, where one follows.
fn take_digest(reader: &mut Reader, follows: bool) -> Result<Option<u32>, FieldError>
    ensures { Reads (λ x. x) reader.new result ((where_so follows u32).read reader.old) }
{
    if follows {
        let digest = reader.take_u32()?;
        return Ok(Some(digest));
    }
    Ok(None)
}
