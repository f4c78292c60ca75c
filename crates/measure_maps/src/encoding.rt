use anyhow::{Result, bail};
use pgs_map::ScrubMap;
use pgs_map_encoding::{decode_map, encode_map};
use std::alloc::{AllocError, Global};

/// How many bytes a map has, which is encoded so many times.
pub fn encoded_again(alloc: Global, map: &ScrubMap, rounds: u32) -> Result<usize, AllocError> {
    let mut bytes = 0;
    for _ in 0..rounds {
        let text = encode_map(alloc, map)?;
        bytes = text.len();
    }
    Ok(bytes)
}

fn decoded(alloc: Global, text: &[u8]) -> Result<usize> {
    let Ok(map) = decode_map(alloc, text) else {
        bail!("the map isn't decoded");
    };
    Ok(map.entries.len())
}

/// How many entries a map has, which is encoded once and decoded so many times.
pub fn decoded_again(alloc: Global, map: &ScrubMap, rounds: u32) -> Result<usize> {
    let text = encode_map(alloc, map)?;
    let mut entries = 0;
    for _ in 0..rounds {
        entries = decoded(alloc, text.as_slice())?;
    }
    Ok(entries)
}
