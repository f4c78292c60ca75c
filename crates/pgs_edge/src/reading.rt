ghost use Rattle.std.specs.Prelude.{◌≡◌, ◌<◌, ◌≤◌, ◌+◌, length, IfOk, IfSome, OnOk, IsErrOf};
ghost use Rattle.std.specs.Io.KnownBytes.{IsAtEnd};
ghost use Rattle.pgs_cause.specs.Count.{Rose};
ghost use Rattle.pgs_edge.specs.Reading.{TakesAtMost, GaveAtLeast};
ghost use Rattle.pgs_edge.specs.declared.reading.ReadAllError.TheVariants.{ReadFault, Memory};

use crate::source::Source;
use pgs_cause::Failed;
use std::alloc::{AllocError, Global};

const PIECE: usize = 4096;

/// Why a text was not read.
#[derive(Clone, Copy, Debug)]
pub enum ReadAllError {
    /// The source failed.
    ReadFault,
    /// The source has more bytes than are allowed.
    TooLong,
    /// Memory ran out.
    Memory,
}

impl From<Failed> for ReadAllError {
    ghost from_gives = { λ _ e. e ≡ ReadFault };

    fn from(_failed: Failed) -> ReadAllError {
        ReadAllError::ReadFault
    }
}

impl From<AllocError> for ReadAllError {
    ghost from_gives = { λ _ e. e ≡ Memory };

    fn from(_refused: AllocError) -> ReadAllError {
        ReadAllError::Memory
    }
}

/// Reads a source to its end, up to `max` bytes, in pieces of at most 4096. It never asks for more
/// than `max + 1` bytes. After an error what it read is lost.
pub fn read_all<S: Source>(alloc: Global, source: &mut S, max: u32) -> Result<Vec<u8>, ReadAllError>
    ensures within { IfOk result (λ text. length text.items ≤ max) }
    ensures whole { IfOk result (λ text. IfSome (S.left source.old) (λ input. text.items ≡ input)) }
    ensures ended { OnOk result (IsAtEnd (S.left source.new)) }
    ensures too_long { IsErrOf result ReadAllError.TooLong
        → IfSome (S.left source.old) (λ input. max < length input) }
    ensures came { IsErrOf result ReadAllError.TooLong
        → GaveAtLeast (S.left source.old) (S.left source.new) (max + 1) }
    ensures fault { IsErrOf result ReadAllError.ReadFault
        → Rose (S.faults source.old) (S.faults source.new) }
    ensures front { TakesAtMost (S.left source.old) (S.left source.new) (max + 1) }
    ensures later { S.faults source.old ≤ S.faults source.new }
{
    let limit = max as usize + 1;
    let mut text = Vec::new(alloc);
    let mut piece = [0; PIECE];
    while text.len() < limit {
        let room = PIECE.min(limit - text.len());
        let count = source.read(&mut piece[..room])?;
        if count == 0 {
            return Ok(text);
        }
        text.extend_from_slice(&piece[..count])?;
    }
    Err(ReadAllError::TooLong)
}
