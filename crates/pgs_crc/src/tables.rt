ghost use Rattle.std.specs.Prelude.{◌≡◌, ℕ, ◌<◌, ◌+◌, ◌*◌, length, slice_index, IfOk};
ghost use Rattle.pgs_crc.specs.Table.{table_word};

use crate::shifts::one_byte;
use std::alloc::{AllocError, Global};

// The words of a row: one for each byte.
const ROW: usize = 256;

/// Tables of the digest: `N` rows of 256 words of 4 bytes. Row 0 serves a digest byte by byte.
#[derive(Drop)]
pub struct Tables<const N: usize> {
    // Row after row.
    words: Vec<u32>,
    ghost some: { 0 < N },
    ghost full: { length words.items ≡ N * 256 },
    ghost exact: { (row byte : ℕ) → row < N → byte < 256 → slice_index words.items (row * 256 + byte) ≡ table_word row byte },
}

impl Tables<1> {
    /// Row 0 alone. It takes 1,024 bytes of memory.
    pub fn make(alloc: Global) -> Result<Tables<1>, AllocError> {
        let words = first_row(alloc)?;
        Ok(Tables { words })
    }
}

impl<const N: usize> Tables<N> {
    /// The word of a byte in a row.
    pub fn word(&self, row: usize, byte: u8) -> u32
        requires { row < N }
        ensures { result ≡ table_word row byte }
    {
        self.words[row * ROW + byte as usize]
    }
}

// The words of the first row.
fn first_row(alloc: Global) -> Result<Vec<u32>, AllocError>
    ensures full { IfOk result (λ words. length words.items ≡ 256) }
    ensures exact { IfOk result (λ words. (byte : ℕ) → byte < 256 → slice_index words.items byte ≡ table_word 0 byte) }
{
    let mut words = Vec::with_capacity(alloc, ROW)?;
    for byte in 0..256u32 {
        words.push(one_byte(byte))?;
    }
    Ok(words)
}
