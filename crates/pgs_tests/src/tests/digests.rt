use pgs_crc::{Crc, Tables};
use std::alloc::{AllocError, Global};
use std::test::Fail;

// The digest of a text that is cut in two.
fn digest(alloc: Global, text: &[u8], cut: usize) -> Result<u32, AllocError> {
    let tables = Tables::make(alloc)?;
    let (front, rest) = text.split_at(cut.min(text.len()));
    let mut crc = Crc::start();
    crc.update(&tables, front);
    crc.update(&tables, rest);
    Ok(crc.value())
}

// The complements of the published check value of CRC-32C and of the vectors for iSCSI, and four by the definition.
#[test]
fn vectors(rt: HostRuntime) -> Result<(), Fail> {
    let mut ascending = Vec::new(rt.alloc());
    for byte in 0..32u8 {
        ascending.push(byte)?;
    }
    let mut descending = ascending.clone()?;
    descending.reverse();
    let rows = [
        (b"".as_slice(), 0xFFFF_FFFF),
        (b"123456789".as_slice(), 0x1CF9_6D7C),
        ([0x00; 32].as_slice(), 0x756E_C955),
        ([0xFF; 32].as_slice(), 0x9D57_54BC),
        (ascending.as_slice(), 0xB922_86B1),
        (descending.as_slice(), 0xEEC0_24A3),
        ([0x00; 4].as_slice(), 0xB798_B438),
        (b"123456788".as_slice(), 0xEE92_EE7F),
    ];
    for (text, wanted) in rows {
        for cut in [0, 1, 5, 32] {
            assert_eq!(rt; digest(rt.alloc(), text, cut)?, wanted);
        }
    }
    let tables = Tables::make(rt.alloc())?;
    assert_eq!(rt; tables.word(0, 0), 0);
    assert_eq!(rt; tables.word(0, 128), 0x82F6_3B78);
    Ok(())
}
