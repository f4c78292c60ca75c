use anyhow::{Result, bail};

/// What is done with the maps.
#[derive(Clone, Copy, Drop)]
pub enum Work {
    /// They are compared.
    Compare,
    /// One of them is encoded.
    Encode,
    /// One of them is decoded.
    Decode,
    /// What comparing them found is listed.
    List,
}

/// The work that a word names.
pub fn work_of(word: &str) -> Result<Work> {
    if word == "compare" {
        return Ok(Work::Compare);
    }
    if word == "encode" {
        return Ok(Work::Encode);
    }
    if word == "decode" {
        return Ok(Work::Decode);
    }
    if word == "list" {
        return Ok(Work::List);
    }
    bail!("there is no such work");
}

/// What of its result is counted.
pub fn unit_of(work: Work) -> &'static str {
    match work {
        Work::Compare => "findings",
        Work::Encode => "bytes",
        Work::Decode => "entries",
        Work::List => "bytes",
    }
}
