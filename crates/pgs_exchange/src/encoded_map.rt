ghost use Rattle.std.specs.Prelude.{◌≡◌, IfOk, Ok};
ghost use Rattle.pgs_map_encoding.specs.Maps.{map_spelling, read_map};

use pgs_bytes::Bytes;
use pgs_map::ScrubMap;
use pgs_map_encoding::encode_map;
use std::alloc::{AllocError, Global};
use std::marker::Model;

/// A map that is kept as the bytes that spell it. Contracts see the map.
#[derive(Drop)]
pub struct EncodedMap {
    text: Bytes,
}

impl Model for EncodedMap {
    ghost use Rattle.pgs_map.specs.declared.scrub_map.ScrubMap.{ScrubMap};
    ghost use Rattle.pgs_exchange.specs.Encoded.{map_in, IsEncoded};

    ghost Value = { ScrubMap };

    ghost view = { λ s. map_in s.text };

    ghost invariant = { λ s. IsEncoded s.text };
}

impl EncodedMap {
    /// A map as bytes. One that has no spelling is refused as want of memory is.
    #[tactic(auto, using(crate::proofs::Encoded::map_is, crate::proofs::Encoded::encoded))]
    pub fn new(alloc: Global, map: &ScrubMap) -> Result<EncodedMap, AllocError>
        ensures { IfOk result (λ kept. kept ≡ map.now) }
    {
        let text = encode_map(alloc, map)?;
        Ok(EncodedMap { text })
    }

    /// Its bytes. They are decoded as the map.
    pub fn into_text(self) -> Bytes
        ensures spelled { result ≡ map_spelling self }
        ensures again { read_map result ≡ Ok self }
    {
        self.text
    }
}
