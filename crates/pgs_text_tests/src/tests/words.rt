use pgs_bytes::{Bytes, is_plain, is_plain_byte};
use pgs_words::{
    after, cut, dashed, ended, hex_byte_in, hex_digit, hex_in, is_word, name, next, number,
    number_in, part, parts_ended, positive, positive_byte, word,
};
use std::cmp::Ordering;
use std::test::Fail;

#[test]
fn numbers(rt: HostRuntime) -> Result<(), Fail> {
    let rows = [
        (b"0".as_slice(), Some(0)),
        (b"10".as_slice(), Some(10)),
        (b"4294967295".as_slice(), Some(4_294_967_295)),
        (b"4294967296".as_slice(), None),
        (b"".as_slice(), None),
        (b"00".as_slice(), None),
        (b"01".as_slice(), None),
        (b"+1".as_slice(), None),
        (b"1a".as_slice(), None),
    ];
    for (text, wanted) in rows {
        assert_eq!(rt; number_in(text).ok(), wanted);
    }
    Ok(())
}

#[test]
fn words_of_a_line(rt: HostRuntime) -> Result<(), Fail> {
    let alloc = rt.alloc();
    let (first, words) = part(b"write 7 255 - a k", b' ');
    assert!(rt; is_word(first, b"write"));
    let (seven, words) = number(words)?;
    let (byte, words) = positive_byte(words)?;
    let (space, words) = dashed(alloc, words, 64)?;
    let words = word(words, b"a")?;
    let (name, words) = name(alloc, words, 255)?;
    ended(words)?;
    assert_eq!(rt; (seven, byte, space.len(), name.len()), (7, 255, 0, 1));
    let (last, words) = next(Some(b"9"), b' ')?;
    assert_eq!(rt; (positive(Some(last))?.0, words.is_none()), (9, true));
    assert_eq!(rt; after(b"text:ab", b"text:"), Some(b"ab".as_slice()));
    assert_eq!(rt;
        cut(b"a\nb\n", b'\n'),
        Some((b"a".as_slice(), b"b\n".as_slice()))
    );
    assert!(rt; is_plain(b"!~") && !is_plain_byte(b' '));
    Ok(())
}

#[test]
fn bytes_are_compared_as_texts(rt: HostRuntime) -> Result<(), Fail> {
    let alloc = rt.alloc();
    let mut a = Bytes::from_slice(alloc, b"ab")?;
    let b = Bytes::from_vec(b"abc".to_vec(alloc)?);
    assert_eq!(rt; a.cmp(&b), Ordering::Less);
    assert!(rt; a.clone()? == a && a < b && Bytes::new(alloc) < a);
    if a.len() == 2 {
        a.set(0, b'b');
    }
    assert_eq!(rt; a.as_slice(), b"bb".as_slice());
    Ok(())
}

#[test]
fn digits(rt: HostRuntime) -> Result<(), Fail> {
    let bytes = hex_in(rt.alloc(), b"00ff1a")?;
    assert_eq!(rt; bytes.as_slice(), [0, 255, 26].as_slice());
    for text in [b"0".as_slice(), b"0F".as_slice(), b"0g".as_slice()] {
        assert!(rt; hex_in(rt.alloc(), text).is_err());
    }
    assert_eq!(rt; hex_byte_in(b"7e")?, 126);
    assert_eq!(rt; (hex_digit(9), hex_digit(10)), (b'9', b'a'));
    let (left, rest) = part(b"a:", b':');
    assert_eq!(rt; left, b"a".as_slice());
    let (_, rest) = next(rest, b':')?;
    parts_ended(rest, b':')?;
    Ok(())
}
