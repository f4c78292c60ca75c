//! Which byte tells of an outcome, and what an outcome allows.
ghost use Rattle.std.specs.Prelude.{◌≡◌};
ghost use Rattle.pgs_codec.specs.Answers.{Reads};
ghost use Rattle.pgs_map_encoding.specs.Entries as defined;

use crate::outcome::Outcome;
use pgs_codec::{FieldError, Reader};
use pgs_map::Entry;

/// The outcome at the front of what is left.
pub fn take_outcome(reader: &mut Reader) -> Result<Outcome, FieldError>
    ensures { Reads (λ x. x) reader.new result (defined.outcome.read reader.old) }
{
    let at = reader.place();
    let byte = reader.take_u8()?;
    if is_outcome(byte) {
        return Ok(outcome_in(byte));
    }
    Err(FieldError::Bad { at })
}

fn is_outcome(byte: u8) -> bool
    ensures { result ≡ defined.is_outcome byte }
{
    byte == 0 || byte == 1 || byte == 2 || byte == 12
}

fn outcome_in(byte: u8) -> Outcome
    ensures { result ≡ defined.outcome_in byte }
{
    if byte == 0 {
        return Outcome::Undigested;
    }
    if byte == 1 {
        return Outcome::StatFailed;
    }
    if byte == 2 {
        return Outcome::ReadFailed;
    }
    Outcome::Digested
}

/// The byte that tells of an outcome.
pub fn byte_of(outcome: Outcome) -> u8
    ensures { result ≡ defined.byte_of outcome }
{
    match outcome {
        Outcome::Undigested => 0,
        Outcome::StatFailed => 1,
        Outcome::ReadFailed => 2,
        Outcome::Digested => 12,
    }
}

/// How an entry's copy was read.
pub fn outcome_of(entry: &Entry) -> Outcome
    ensures { result ≡ defined.outcome_of entry.now }
{
    if entry.stat_failed {
        return Outcome::StatFailed;
    }
    if entry.read_failed {
        return Outcome::ReadFailed;
    }
    if entry.data_digest.is_some() {
        return Outcome::Digested;
    }
    Outcome::Undigested
}

/// Whether the device failed at the copy's size.
pub fn is_stat_failure(outcome: Outcome) -> bool
    ensures { result ≡ defined.is_stat_failure outcome }
{
    match outcome {
        Outcome::StatFailed => true,
        Outcome::Undigested | Outcome::ReadFailed | Outcome::Digested => false,
    }
}

/// Whether the device failed at the copy's data.
pub fn is_read_failure(outcome: Outcome) -> bool
    ensures { result ≡ defined.is_read_failure outcome }
{
    match outcome {
        Outcome::ReadFailed => true,
        Outcome::Undigested | Outcome::StatFailed | Outcome::Digested => false,
    }
}

/// Whether the digests follow.
pub fn has_digests(outcome: Outcome) -> bool
    ensures { result ≡ defined.has_digests outcome }
{
    match outcome {
        Outcome::Digested => true,
        Outcome::Undigested | Outcome::StatFailed | Outcome::ReadFailed => false,
    }
}

/// Whether an outcome allows a size, or a number of attributes.
pub fn may_be(outcome: Outcome, number: u64) -> bool
    ensures { result ≡ defined.may_be outcome number }
{
    !is_stat_failure(outcome) || number == 0
}
