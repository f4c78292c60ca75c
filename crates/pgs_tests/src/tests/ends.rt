use pgs_bytes::Bytes;
use pgs_cause::raised;
use pgs_edge::{MemSink, MemSource, ReadAllError, StdSink, StdSource, read_all, write_all};
use std::io;
use std::test::Fail;

#[test]
fn a_read_fails_in_mid_stream(rt: HostRuntime) -> Result<(), Fail> {
    let alloc = rt.alloc();
    for failing in 1..6u64 {
        let text = Bytes::from_slice(alloc, b"123456789")?;
        let mut source = MemSource::new(text, 3, vec![in alloc; failing]?);
        let read = read_all(alloc, &mut source, 9);
        if failing == 5 {
            assert_eq!(rt; read?.as_slice(), b"123456789".as_slice());
            assert_eq!(rt; source.faults(), 0);
        } else {
            assert!(rt; matches!(&read, Err(ReadAllError::ReadFault)));
            assert_eq!(rt; source.faults(), 1);
        }
    }
    let text = Bytes::from_slice(alloc, b"1234567890")?;
    let mut source = MemSource::new(text, 3, Vec::new(alloc));
    assert!(rt; matches!(&read_all(alloc, &mut source, 9), Err(ReadAllError::TooLong)));
    Ok(())
}

#[test]
fn a_write_fails_or_takes_nothing_in_mid_stream(rt: HostRuntime) -> Result<(), Fail> {
    let alloc = rt.alloc();
    for bad in 1..5u64 {
        for idle in [false, true] {
            let number = vec![in alloc; bad]?;
            let none = Vec::new(alloc);
            let mut sink = if idle {
                MemSink::new(alloc, 3, none, number)
            } else {
                MemSink::new(alloc, 3, number, none)
            };
            let taken = match write_all(&mut sink, b"123456789") {
                Ok(()) => 9,
                Err(fault) => fault.taken,
            };
            assert_eq!(rt; taken, (bad as usize - 1) * 3);
            assert_eq!(rt; sink.taken(), &b"123456789"[..taken.min(9)]);
            assert_eq!(rt; sink.faults(), if bad < 4 { 1 } else { 0 });
        }
    }
    assert_eq!(rt; raised(7), 8);
    Ok(())
}

#[test]
fn readers_and_writers_of_std(rt: HostRuntime) -> Result<(), Fail> {
    let alloc = rt.alloc();
    let mut source = StdSource::new(b"123456789".as_slice());
    let text = read_all(alloc, &mut source, 9)?;
    assert_eq!(rt; text.as_slice(), b"123456789".as_slice());
    let mut sink = StdSink::new(Vec::new(alloc));
    assert!(rt; write_all(&mut sink, text.as_slice()).is_ok());
    let mut nowhere = StdSink::new(io::sink());
    assert!(rt; write_all(&mut nowhere, text.as_slice()).is_ok());
    Ok(())
}
