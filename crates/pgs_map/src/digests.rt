//! The digests of a copy. They take no memory.
ghost use Rattle.std.specs.Prelude.{◌≡◌, ◌++◌, length};
ghost use Rattle.pgs_crc.specs.Digest.{crc, crc_from};
ghost use Rattle.pgs_map.specs.Digests as defined;

use pgs_bytes::Bytes;
use pgs_copy::{ObjCopy, Pairs};
use pgs_crc::{Crc, Tables};

/// The digest of a copy's data.
pub fn data_digest(tables: &Tables<1>, bytes: &[u8]) -> u32
    ensures { result ≡ crc bytes.now }
{
    let mut digest = Crc::start();
    digest.update(tables, bytes);
    digest.value()
}

/// The digest of a copy's omap: of the header, and then of every key and its value in the order of the keys' bytes, each behind its
/// length.
#[tactic(auto, using(crate::proofs::Texts::two_taken))]
pub fn omap_digest(tables: &Tables<1>, copy: &ObjCopy) -> u32
    ensures { result ≡ defined.omap_digest copy.now }
{
    let mut digest = Crc::start();
    take_in(&mut digest, tables, &copy.header);
    take_pairs_in(&mut digest, tables, &copy.omap);
    digest.value()
}

// Takes in bytes behind their length.
fn take_in(digest: &mut Crc, tables: &Tables<1>, bytes: &Bytes)
    ensures { digest.new ≡ crc_from digest.old (defined.behind_length bytes.now) }
{
    let length = (bytes.len() as u64 % (1 << 32)) as u32;
    digest.update(tables, length.to_le_bytes().as_slice());
    digest.update(tables, bytes.as_slice());
}

// Takes in keys with their values.
#[tactic(auto, using(crate::proofs::Texts::pair_taken, crate::proofs::Texts::none_taken))]
fn take_pairs_in(digest: &mut Crc, tables: &Tables<1>, pairs: &Pairs)
    ensures { digest.new ≡ crc_from digest.old (defined.pairs_text pairs.now) }
{
    for (key, value) in pairs.as_map() {
        take_in(digest, tables, key);
        take_in(digest, tables, value);
    }
}
