ghost use Rattle.std.specs.Prelude.{◌≡◌};
ghost use Rattle.pgs_crc.specs.Digest.{bit_shifted, fed};

// The polynomial of CRC-32C, its bits reflected.
const POLYNOMIAL: u32 = 0x82F6_3B78;

// One bit further.
#[tactic(auto, unfolding(crate::specs::Digest::bit_shifted))]
fn one_bit(word: u32) -> u32
    ensures { result ≡ bit_shifted word }
{
    if word % 2 == 1 {
        (word >> 1) ^ POLYNOMIAL
    } else {
        word >> 1
    }
}

// What a byte of zeros makes of a word.
#[tactic(auto, using(crate::proofs::Steps::more_bits, crate::proofs::Steps::no_bits), unfolding(crate::specs::Digest::fed))]
pub fn one_byte(word: u32) -> u32
    ensures { result ≡ fed word 0 }
{
    let mut shifted = word;
    for _bit in 0..8u32 {
        shifted = one_bit(shifted);
    }
    shifted
}

/// A byte taken in bit by bit, without tables.
#[tactic(auto, using(crate::proofs::Steps::fed_apart))]
pub fn feed(value: u32, byte: u8) -> u32
    ensures { result ≡ fed value byte }
{
    one_byte(value ^ u32::from(byte))
}
