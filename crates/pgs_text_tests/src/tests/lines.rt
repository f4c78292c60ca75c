use pgs_lines::{Line, line_in};
use std::alloc::Global;
use std::test::Fail;

/// Whether a line is read.
pub fn is_read(alloc: Global, text: &[u8]) -> bool {
    match line_in(alloc, text) {
        Ok(line) => {
            drop(line);
            true
        }
        Err(_) => false,
    }
}

// The bits of a line that declares a pool.
fn bits_in(line: &Line) -> Option<u32> {
    match line {
        Line::Pool { bits } => Some(*bits),
        _ => None,
    }
}

#[test]
fn lines(rt: HostRuntime) -> Result<(), Fail> {
    let good = [
        b"pool 0".as_slice(),
        b"osd 63 8".as_slice(),
        b"group 7 1 5 6 7".as_slice(),
        b"write 1 2 s k a - full text:".as_slice(),
        b"settle 0".as_slice(),
        b"damage 0 2 - - a head flip 4294967295 255".as_slice(),
        b"write 1 2 - - a - full hex:".as_slice(),
        b"write 1 2 - - a - full hex:00ff".as_slice(),
        b"write 1 2 - - a - full fill:4294967295:0a".as_slice(),
        b"write 1 2 - - : - full text:::".as_slice(),
        b"collect 0 1 2".as_slice(),
        b"pull 0 1".as_slice(),
        b"apply 0 1".as_slice(),
        b"tell 0 1".as_slice(),
        b"sweep 0 deep".as_slice(),
        b"sweep 0 shallow".as_slice(),
        b"list-obj 0".as_slice(),
        b"list-snap 4294967295".as_slice(),
        b"begin 0 shallow".as_slice(),
        b"open 0".as_slice(),
        b"scan 0 1".as_slice(),
        b"take 0 1".as_slice(),
        b"close 0".as_slice(),
        b"end".as_slice(),
    ];
    for line in good {
        assert!(rt; is_read(rt.alloc(), line));
    }
    let bad = [
        b"".as_slice(),
        b"end ".as_slice(),
        b"osd 0 0".as_slice(),
        b"group 0 1".as_slice(),
        b"write 1 2 - - a - full hex:0".as_slice(),
        b"write 1 2 - - a - full hex:0A".as_slice(),
        b"write 1 2 - - a - full fill:01:00".as_slice(),
        b"write 1 2 - - a - full fill:4294967296:00".as_slice(),
        b"write 1 2 - - a - full fill:1:0".as_slice(),
        b"write 1 2 - - a - full fill:1:00:".as_slice(),
        b"write 1 2 - - a - full fill:1".as_slice(),
        b"write 1 2 - - a - full bytes:a".as_slice(),
        b"write 1 2 - - a full text:".as_slice(),
        b"pull 0".as_slice(),
        b"tell 0 1 2".as_slice(),
        b"collect 0 1".as_slice(),
        b"sweep 0 repair".as_slice(),
        b"damage 0 2 - - a head flip 0 256".as_slice(),
        b"damage 0 2 - - a head flip 0 0".as_slice(),
        b"sweep 0  deep".as_slice(),
        b"list-obj".as_slice(),
        b"list-snap 0 1".as_slice(),
        b"begin 0".as_slice(),
        b"open 0 1".as_slice(),
        b"scan 0".as_slice(),
        b"take 0 1 2".as_slice(),
        b"close".as_slice(),
    ];
    for line in bad {
        assert!(rt; !is_read(rt.alloc(), line));
    }
    let line = line_in(rt.alloc(), b"pool 3")?;
    let bits = bits_in(&line);
    drop(line);
    assert_eq!(rt; bits, Some(3));
    Ok(())
}
