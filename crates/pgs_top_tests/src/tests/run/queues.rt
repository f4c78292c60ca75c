use crate::tests::run::running::replayed;
use pgs_chunk::Limits;
use std::alloc::{AllocError, Global};
use std::test::Fail;

// A chunk that gives way to no write.
const FIRM: &[u8] =
    b"pool 0\nosd 0 1\nosd 1 1\nosd 2 1\ngroup 0 4 0 1 2\nwrite 1 1 - k a - full text:x\n\
begin 0 deep\nclaim 0\nclaim 0\nclaim 0\nopen 0\n";

// Where so many writes of the chunk follow.
fn script(alloc: Global, writes: u32) -> Result<Vec<u8>, AllocError> {
    let mut text = Vec::new(alloc);
    text.extend_from_slice(FIRM)?;
    for number in 0..writes {
        let serial = u64::from(number) + 2;
        let line = format!(in alloc; "write 1 {serial} - k a - attr _x text:v\n")?;
        text.extend_from_slice(line.as_bytes())?;
    }
    text.extend_from_slice(b"end\n")?;
    Ok(text)
}

const LAST: &[u8] = b"\nwrite 1 1025 - k a - attr _x text:v : parked from min to max\n\
write 1 1026 - k a - attr _x text:v : queue-full 1024\nend\n";

#[test]
fn a_full_queue(rt: HostRuntime) -> Result<(), Fail> {
    let limits = Limits {
        preemptions: 0,
        ..Limits::usual()
    };
    let script = script(rt.alloc(), 1025)?;
    let sink = replayed(rt.alloc(), limits, script.as_slice())?;
    assert!(rt; sink.taken().ends_with(LAST));
    Ok(())
}
