ghost use Rattle.std.specs.Prelude.{◌≡◌, ℕ, List, [], ◌++◌};
ghost use Rattle.pgs_crc.specs.Digest.{crc, crc_from, fed};

use crate::tables::Tables;
use std::marker::Model;

/// A running digest, which contracts see as its number. It is CRC-32C with no inversion at the end, so its value at any
/// moment is the digest of the bytes so far.
#[derive(Drop)]
pub struct Crc {
    value: u32,
}

impl Model for Crc {
    ghost use Rattle.std.specs.Prelude.{ℕ, ◌<◌, ◌^◌};

    ghost Value = { ℕ };

    ghost view = { λ c. c.value };

    ghost invariant = { λ c. c.value < 2 ^ 32 };
}

impl Crc {
    /// The digest of no byte.
    pub fn start() -> Crc
        ensures { result ≡ crc [] }
    {
        Crc { value: u32::MAX }
    }

    /// Takes a piece of a text in, byte by byte and without memory. All tables give the same.
    pub fn update<const N: usize>(&mut self, tables: &Tables<N>, piece: &[u8])
        ensures value { self.new ≡ crc_from self.old piece.now }

        // So the digest of a text is the same for every cut into pieces.
        ensures text { (text : List ℕ) → self.old ≡ crc text → self.new ≡ crc (text ++ piece.now) }
    {
        self.value = with_bytes(self.value, tables, piece);
    }

    /// The digest of the bytes so far.
    pub fn value(&self) -> u32
        ensures { result ≡ self.now }
    {
        self.value
    }
}

// A byte taken in, by the first row.
#[inline]
#[tactic(auto, using(crate::proofs::Steps::looked_up))]
fn with_byte<const N: usize>(value: u32, tables: &Tables<N>, byte: u8) -> u32
    ensures { result ≡ fed value byte }
{
    let low = ((value ^ u32::from(byte)) & 0xFF) as u8;
    (value >> 8) ^ tables.word(0, low)
}

// A piece taken in, from its front.
fn with_bytes<const N: usize>(value: u32, tables: &Tables<N>, piece: &[u8]) -> u32
    ensures { result ≡ crc_from value piece.now }
{
    let mut value = value;
    for byte in piece {
        value = with_byte(value, tables, *byte);
    }
    value
}
