use pgs_codec::DecodeError;
use pgs_info::ObjectInfo;
use pgs_name::HEAD;
use std::alloc::{AllocError, Global};
use std::test::Fail;

// The head `a` with version 4'1, prior 0'0, size 9 and a data digest.
const HEAD_A: &[u8; 60] =
    b"\x49\x01\x00\x00\x00\x00\x00\x00\x00\x00\x01\x00\x00\x00\x61\xfe\xff\xff\xff\xff\xff\xff\xff\x04\x00\x00\x00\x01\x00\x00\x00\x00\x00\x00\x00\x00\x00\x00\x00\x00\x00\x00\x00\x00\x00\x00\x00\x09\x00\x00\x00\x00\x00\x00\x00\x02\x7c\x6d\xf9\x1c";

fn is_of_the_head(info: &ObjectInfo) -> bool {
    let id = &info.id;
    id.family.space().is_empty()
        && id.family.kept_key().is_empty()
        && id.family.name() == b"a".as_slice()
        && id.snap == HEAD
}

fn has_its_facts(info: &ObjectInfo) -> bool {
    info.version.epoch == 4
        && info.version.number == 1
        && info.prior.epoch == 0
        && info.prior.number == 0
        && info.size == 9
        && info.data_digest == Some(0x1CF9_6D7C)
        && info.omap_digest.is_none()
        && !info.whiteout
}

#[test]
fn an_info_is_decoded(rt: HostRuntime) -> Result<(), Fail> {
    let info = ObjectInfo::decode(rt.alloc(), HEAD_A)
        .ok()
        .ok_or("it is whole")?;
    assert!(rt; is_of_the_head(&info));
    assert!(rt; has_its_facts(&info));
    Ok(())
}

fn spelled_again(alloc: Global, text: &[u8]) -> Result<bool, DecodeError> {
    let info = ObjectInfo::decode(alloc, text)?;
    let copy = info.clone()?;
    let spelled = copy.encode(alloc)?;
    Ok(spelled.as_slice() == text)
}

#[test]
fn an_info_is_spelled(rt: HostRuntime) {
    assert!(rt; matches!(spelled_again(rt.alloc(), HEAD_A), Ok(true)));
}

// The place at which the text with another byte of flags and more bytes behind it is refused.
fn refused_at(alloc: Global, length: usize, flags: u8) -> Result<Option<usize>, AllocError> {
    let mut text = Vec::from_slice(alloc, HEAD_A)?;
    if 55 < text.len() {
        text[55] = flags;
    }
    text.resize(length, 0)?;
    match ObjectInfo::decode(alloc, &text) {
        Ok(_) => Ok(None),
        Err(DecodeError::Corrupt { at }) => Ok(Some(at)),
        Err(DecodeError::Memory) => Err(AllocError),
    }
}

#[test]
fn places(rt: HostRuntime) -> Result<(), Fail> {
    let rows = [
        (60, 2, None),
        (59, 2, Some(56)),
        (61, 2, Some(60)),
        (60, 8, Some(55)),
        (60, 3, None),
        (60, 6, Some(60)),
        (60, 0, Some(56)),
    ];
    for (length, flags, place) in rows {
        assert_eq!(rt; refused_at(rt.alloc(), length, flags)?, place);
    }
    Ok(())
}
