ghost use Rattle.std.specs.Prelude.{◌≡◌, IsTrue, IfOk, Ok};
ghost use Rattle.pgs_codec.specs.Answers.{Decodes};
ghost use Rattle.pgs_map.specs.declared.scrub_map.ScrubMap.{ScrubMap};
ghost use Rattle.pgs_map_encoding.specs.Maps.{map_spelling, map_fits, read_map};

use crate::fits::has_spelling;
use crate::map_reading::take_map;
use crate::map_writing::put_map;
use pgs_bytes::Bytes;
use pgs_codec::{DecodeError, Reader};
use pgs_map::ScrubMap;
use std::alloc::{AllocError, Global};

/// The one spelling of a map. A map has none where it has more than 4,294,967,295 entries, or one of them as many attributes, or a
/// name or a value of an attribute as many bytes; where its entries don't ascend in its range, or tell of two outcomes; and where a
/// name or a snap is out of its bounds. Such a map is refused as want of memory is.
#[tactic(auto, using(crate::proofs::Maps::only_map))]
pub fn encode_map(alloc: Global, map: &ScrubMap) -> Result<Bytes, AllocError>
    ensures spelled { IfOk result (λ b. b ≡ map_spelling map.now) }

    // What is spelled is read, and no other map is spelled so.
    ensures again { IfOk result (λ b. read_map b ≡ Ok map.now) }
    ensures apart { IfOk result (λ b. (other : ScrubMap) → IsTrue (map_fits other) → map_spelling other ≡ b → other ≡ map.now) }
{
    let text = encode_whole(alloc, map)?;
    Ok(text)
}

#[tactic(auto, using(crate::proofs::Spelled::map_again))]
fn encode_whole(alloc: Global, map: &ScrubMap) -> Result<Bytes, AllocError>
    ensures spelled { IfOk result (λ b. b ≡ map_spelling map.now) }
    ensures again { IfOk result (λ b. read_map b ≡ Ok map.now) }
{
    if !has_spelling(map) {
        return Err(AllocError);
    }
    let mut text = Vec::new(alloc);
    put_map(&mut text, map)?;
    Ok(Bytes::from_vec(text))
}

/// The map that a whole text spells. A count is never trusted: memory is taken for what was read.
pub fn decode_map(alloc: Global, text: &[u8]) -> Result<ScrubMap, DecodeError>
    ensures exact { Decodes result (read_map text.now) }

    // What is read was spelled so, and what is spelled so is read.
    ensures found { IfOk result (λ m. IsTrue (map_fits m) × (text.now ≡ map_spelling m)) }
    ensures only { (m : ScrubMap) → IsTrue (map_fits m) → text.now ≡ map_spelling m → Decodes result (Ok m) }
{
    decode_all(alloc, text)
}

#[tactic(auto, unfolding(crate::specs::Maps::read_map))]
fn decode_all(alloc: Global, text: &[u8]) -> Result<ScrubMap, DecodeError>
    ensures { Decodes result (read_map text.now) }
{
    let mut reader = Reader::new(text);
    let map = take_map(alloc, &mut reader)?;
    reader.finish()?;
    Ok(map)
}
