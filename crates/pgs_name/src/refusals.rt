ghost use Rattle.std.specs.Prelude.{◌≡◌, not};
ghost use Rattle.std.specs.List.{position};
ghost use Rattle.pgs_name.specs.Bounds.{plain_byte, kept_key};
ghost use Rattle.pgs_name.specs.Refusal.{refusal_of, bytes_refusal, snap_refusal, word_refusal, name_refusal};

use crate::name_error::NameError;
use crate::object_id::HEAD;
use crate::part::Part;
use pgs_bytes::is_plain_byte;

// The most bytes of a space, and of a key or a name.
const MOST_OF_SPACE: usize = 64;

const MOST_OF_NAME: usize = 255;

// The first refusal of a name's parts and snap.
#[tactic(auto, unfolding(crate::specs::Refusal::refusal_of))]
pub fn refusal(space: &[u8], key: &[u8], name: &[u8], snap: u64) -> Option<NameError>
    ensures { result ≡ refusal_of space.now key.now name.now snap }
{
    if let Some(refusal) = of_word(Part::Space, MOST_OF_SPACE, space) {
        return Some(refusal);
    }
    if let Some(refusal) = of_word(Part::Key, MOST_OF_NAME, key) {
        return Some(refusal);
    }
    if let Some(refusal) = of_name(name) {
        return Some(refusal);
    }
    of_snap(snap)
}

fn of_word(part: Part, most: usize, word: &[u8]) -> Option<NameError>
    ensures { result ≡ word_refusal part most word.now }
{
    if let Some(refusal) = of_bytes(part, most, word) {
        return Some(refusal);
    }
    if word == b"-".as_slice() {
        return Some(NameError::BadName { part, at: 0 });
    }
    None
}

fn of_name(name: &[u8]) -> Option<NameError>
    ensures { result ≡ name_refusal name.now }
{
    if let Some(refusal) = of_bytes(Part::Name, MOST_OF_NAME, name) {
        return Some(refusal);
    }
    if name.is_empty() {
        return Some(NameError::BadName {
            part: Part::Name,
            at: 0,
        });
    }
    None
}

fn of_bytes(part: Part, most: usize, word: &[u8]) -> Option<NameError>
    ensures { result ≡ bytes_refusal part most word.now }
{
    if word.len() > most {
        return Some(NameError::NameTooLong { part });
    }
    match first_unplain(word) {
        Some(at) => Some(NameError::BadName { part, at }),
        None => None,
    }
}

// The place of the first byte that no name has.
fn first_unplain(word: &[u8]) -> Option<usize>
    ensures { result ≡ position (λ b. not (plain_byte b)) word.now }
{
    word.iter().position(|b| !is_plain_byte(*b))
}

fn of_snap(snap: u64) -> Option<NameError>
    ensures { result ≡ snap_refusal snap }
{
    if snap == 0 || snap > HEAD {
        return Some(NameError::BadSnap);
    }
    None
}

// The key as it is kept: empty where it is the name.
pub fn kept<'a>(key: &'a [u8], name: &[u8]) -> &'a [u8]
    ensures { result.now ≡ kept_key key.now name.now }
{
    if key == name { &[] } else { key }
}
