//! Spelling an object info, part by part. Nothing is said of the vector where memory runs out.
ghost use Rattle.std.specs.Prelude.{◌≡◌, ◌++◌, OnOk};
ghost use Rattle.pgs_codec.specs.Fields.{u32, spelled_where};
ghost use Rattle.pgs_info.specs.Flags.{byte_of, bit_where, flags};
ghost use Rattle.pgs_info.specs.Info.{version, sizes, digests, marks, flags_of, info_spelling};

use crate::flags::{DATA_DIGEST, Flags, OMAP_DIGEST, WHITEOUT};
use crate::info::ObjectInfo;
use pgs_codec::{put_id, put_u8, put_u32, put_u64};
use pgs_request::Version;
use std::alloc::AllocError;

/// Appends the spelling of an info.
#[tactic(auto, using(crate::proofs::Joined::four), unfolding(crate::specs::Info::info_spelling))]
pub fn put_info(into: &mut Vec<u8>, info: &ObjectInfo) -> Result<(), AllocError>
    ensures { OnOk result (into.new.items ≡ into.old.items ++ info_spelling info.now) }
{
    put_marks(into)?;
    put_id(into, &info.id)?;
    put_sizes(into, info)?;
    put_digests(into, info)
}

#[tactic(auto, using(crate::proofs::Joined::two))]
fn put_marks(into: &mut Vec<u8>) -> Result<(), AllocError>
    ensures { OnOk result (into.new.items ≡ into.old.items ++ marks.spell (tt, tt)) }
{
    put_u8(into, 0x49)?;
    put_u8(into, 1)
}

#[tactic(auto, using(crate::proofs::Joined::three))]
fn put_sizes(into: &mut Vec<u8>, info: &ObjectInfo) -> Result<(), AllocError>
    ensures { OnOk result (into.new.items ≡ into.old.items ++ sizes.spell (info.now.version, (info.now.prior, info.now.size))) }
{
    put_version(into, info.version)?;
    put_version(into, info.prior)?;
    put_u64(into, info.size)
}

#[tactic(auto, using(crate::proofs::Joined::two))]
fn put_version(into: &mut Vec<u8>, value: Version) -> Result<(), AllocError>
    ensures { OnOk result (into.new.items ≡ into.old.items ++ version.spell value) }
{
    put_u32(into, value.epoch)?;
    put_u64(into, value.number)
}

#[tactic(auto, using(crate::proofs::Joined::three))]
fn put_digests(into: &mut Vec<u8>, info: &ObjectInfo) -> Result<(), AllocError>
    ensures { OnOk result (into.new.items ≡ into.old.items ++ digests.spell (flags_of info.now, (info.now.data_digest, info.now.omap_digest))) }
{
    put_u8(into, byte_of(flags_of(info)))?;
    put_digest(into, info.data_digest)?;
    put_digest(into, info.omap_digest)
}

fn flags_of(info: &ObjectInfo) -> Flags
    ensures { result ≡ flags_of info.now }
{
    Flags {
        whiteout: info.whiteout,
        data_digest: info.data_digest.is_some(),
        omap_digest: info.omap_digest.is_some(),
    }
}

fn byte_of(flags: Flags) -> u8
    ensures { result ≡ byte_of flags }
{
    let whiteout = bit_where(flags.whiteout, WHITEOUT);
    let data_digest = bit_where(flags.data_digest, DATA_DIGEST);
    let omap_digest = bit_where(flags.omap_digest, OMAP_DIGEST);
    whiteout + data_digest + omap_digest
}

// A bit, where it is set.
fn bit_where(set: bool, bit: u8) -> u8
    ensures { result ≡ bit_where set bit }
{
    if set { bit } else { 0 }
}

fn put_digest(into: &mut Vec<u8>, digest: Option<u32>) -> Result<(), AllocError>
    ensures { OnOk result (into.new.items ≡ into.old.items ++ spelled_where u32 digest) }
{
    match digest {
        Some(digest) => put_u32(into, digest),
        None => Ok(()),
    }
}
