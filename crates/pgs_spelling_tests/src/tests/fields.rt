use pgs_codec::{FieldError, Reader, put_bytes, put_id, put_u8, put_u32, put_u64};
use pgs_name::{NameError, ObjectId};
use std::alloc::{AllocError, Global};
use std::test::Fail;

fn fields(alloc: Global) -> Result<Vec<u8>, AllocError> {
    let mut text = Vec::new(alloc);
    put_u8(&mut text, 7)?;
    put_u32(&mut text, 0x0102_0304)?;
    put_u64(&mut text, 5)?;
    put_bytes(&mut text, b"ab")?;
    Ok(text)
}

const FIELDS: &[u8; 19] = b"\x07\x04\x03\x02\x01\x05\0\0\0\0\0\0\0\x02\0\0\0ab";

#[test]
fn fields_are_spelled(rt: HostRuntime) -> Result<(), Fail> {
    let text = fields(rt.alloc())?;
    assert!(rt; text.as_slice() == FIELDS.as_slice());
    Ok(())
}

fn read(alloc: Global, reader: &mut Reader) -> Result<bool, FieldError> {
    let byte = reader.take_u8()?;
    let word = reader.take_u32()?;
    let number = reader.take_u64()?;
    let bytes = reader.take_bytes(alloc, 2)?;
    Ok(byte == 7 && word == 0x0102_0304 && number == 5 && bytes.as_slice() == b"ab".as_slice())
}

#[test]
fn fields_are_read(rt: HostRuntime) -> Result<(), Fail> {
    let mut reader = Reader::new(FIELDS);
    assert!(rt; matches!(read(rt.alloc(), &mut reader), Ok(true)));
    assert_eq!(rt; reader.place(), 19);
    assert_eq!(rt; reader.rest(), 0);
    assert!(rt; reader.finish().is_ok());
    Ok(())
}

// A reader that is refused stays where it was.
#[test]
fn a_refused_field(rt: HostRuntime) {
    let mut reader = Reader::new(b"\x03\0\0\0abc");
    assert!(rt;
        matches!(
            reader.take_bytes(rt.alloc(), 2),
            Err(FieldError::Bad { at: 0 })
        )
    );
    assert!(rt; matches!(reader.take_fixed(4), Err(FieldError::Bad { at: 0 })));
    assert!(rt; reader.take_fixed(3).is_ok());
    assert!(rt; matches!(reader.take_u64(), Err(short) if short.at == 1));
    assert_eq!(rt; reader.rest(), 6);
}

fn spelled_id(alloc: Global) -> Result<Vec<u8>, NameError> {
    let id = ObjectId::new(alloc, b"ns", b"obj", b"obj", 7)?;
    let mut text = Vec::new(alloc);
    put_id(&mut text, &id)?;
    Ok(text)
}

// A key that is the name is spelled as an empty one.
const ID: &[u8; 25] = b"\x02\0\0\0ns\0\0\0\0\x03\0\0\0obj\x07\0\0\0\0\0\0\0";

#[test]
fn a_position_is_spelled(rt: HostRuntime) -> Result<(), Fail> {
    let text = spelled_id(rt.alloc())?;
    assert!(rt; text.as_slice() == ID.as_slice());
    Ok(())
}

fn snap_of(alloc: Global, text: &[u8]) -> Result<u64, FieldError> {
    let mut reader = Reader::new(text);
    let id = reader.take_id(alloc)?;
    Ok(id.snap)
}

// Each part of a position is a field of its own.
#[test]
fn positions_are_read(rt: HostRuntime) {
    let alloc = rt.alloc();
    assert!(rt; matches!(snap_of(alloc, ID), Ok(7)));
    let dash = b"\x01\0\0\0-";
    assert!(rt; matches!(snap_of(alloc, dash), Err(FieldError::Bad { at: 0 })));
    let cut = b"\0\0\0\0\x02\0\0\0k";
    assert!(rt; matches!(snap_of(alloc, cut), Err(FieldError::Short { at: 4 })));
    let twice = b"\0\0\0\0\x01\0\0\0a\x01\0\0\0a\x01\0\0\0\0\0\0\0";
    assert!(rt; matches!(snap_of(alloc, twice), Err(FieldError::Bad { at: 9 })));
    let snap = b"\0\0\0\0\0\0\0\0\x01\0\0\0a\0\0\0\0\0\0\0\0";
    assert!(rt; matches!(snap_of(alloc, snap), Err(FieldError::Bad { at: 13 })));
}
