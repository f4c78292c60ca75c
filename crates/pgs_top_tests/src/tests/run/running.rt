use pgs_bytes::Bytes;
use pgs_chunk::{Limits, Settings};
use pgs_edge::{MemSink, MemSource};
use pgs_top::{Status, replay, top};
use std::alloc::{AllocError, Global};

fn source_of(alloc: Global, script: &[u8]) -> Result<MemSource, AllocError> {
    let text = Bytes::from_slice(alloc, script)?;
    Ok(MemSource::new(text, 64, Vec::new(alloc)))
}

fn sink(alloc: Global) -> MemSink {
    MemSink::new(alloc, 100, Vec::new(alloc), Vec::new(alloc))
}

/// How the program ends with the word `replay`, and what it prints of a script.
pub fn run(alloc: Global, script: &[u8]) -> Result<(Status, MemSink), AllocError> {
    let words = vec![in alloc; String::from_str(alloc, "replay")?]?;
    let mut source = source_of(alloc, script)?;
    let mut sink = sink(alloc);
    let status = top(alloc, words.as_slice(), &mut source, &mut sink).status;
    Ok((status, sink))
}

// What is printed of a script whose chunks have these limits: all, or the lists alone.
fn replayed_as(
    alloc: Global,
    limits: Limits,
    lists: bool,
    script: &[u8],
) -> Result<MemSink, AllocError> {
    let mut source = source_of(alloc, script)?;
    let mut sink = sink(alloc);
    let settings = Settings {
        limits,
        lists,
        ..Settings::usual()
    };
    replay(alloc, settings, &mut source, &mut sink);
    Ok(sink)
}

/// What is printed of a script whose chunks have these limits.
pub fn replayed(alloc: Global, limits: Limits, script: &[u8]) -> Result<MemSink, AllocError> {
    replayed_as(alloc, limits, false, script)
}

/// What is printed of a script where the lists alone are wanted.
pub fn listed(alloc: Global, script: &[u8]) -> Result<MemSink, AllocError> {
    replayed_as(alloc, Limits::usual(), true, script)
}

/// Chunks of one position, and so many preemptions.
pub fn one_by_one(preemptions: u32) -> Limits {
    Limits {
        chunk_min: 1,
        chunk_max: 1,
        preemptions,
    }
}
