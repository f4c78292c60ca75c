ghost use Rattle.std.specs.Prelude.{◌≡◌};
ghost use Rattle.pgs_bytes.specs.Texts as texts;

/// Whether a word or a name may have this byte: 0x21 to 0x7E, which is printed and no blank.
pub fn is_plain_byte(byte: u8) -> bool
    ensures { result ≡ texts.plain_byte byte }
{
    byte >= 0x21 && byte <= 0x7E
}

/// Whether every byte of a text is one that a word or a name may have.
pub fn is_plain(text: &[u8]) -> bool
    ensures { result ≡ texts.is_plain text.now }
{
    text.iter().all(|byte| is_plain_byte(*byte))
}
