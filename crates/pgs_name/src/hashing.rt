//! The hash of a family's parts, and its place in the order.
ghost use Rattle.std.specs.Prelude.{◌≡◌, ◌∷◌, ◌++◌};
ghost use Rattle.pgs_crc.specs.Digest.{crc, crc_from};
ghost use Rattle.pgs_name.specs.Order.{reversed};

use crate::reversing::reverse_bits;
use pgs_crc::feed;

// What stands between the space and the key where both are hashed.
const SEPARATOR: u8 = 0x1F;

#[tactic(auto, using(crate::proofs::Pieces::in_pieces))]
pub fn hash_of_parts(space: &[u8], key: &[u8]) -> u32
    ensures { result ≡ crc (space.now ++ 0x1F ∷ key.now) }
{
    let space = feed_all(u32::MAX, space);
    feed_all(feed(space, SEPARATOR), key)
}

pub fn place_of_parts(space: &[u8], key: &[u8]) -> u32
    ensures { result ≡ reversed 32 (crc (space.now ++ 0x1F ∷ key.now)) }
{
    reverse_bits(hash_of_parts(space, key))
}

// Bytes taken into a digest, from their front.
fn feed_all(value: u32, bytes: &[u8]) -> u32
    ensures { result ≡ crc_from value bytes.now }
{
    let mut value = value;
    for byte in bytes {
        value = feed(value, *byte);
    }
    value
}
