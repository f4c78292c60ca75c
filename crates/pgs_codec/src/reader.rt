ghost use Rattle.std.specs.Prelude.{◌≡◌, ◌^◌, length};
ghost use Rattle.pgs_codec.specs.Reading.{unread};
ghost use Rattle.pgs_codec.specs.Fields.{u8, u32, u64, fixed, text, IsSpelling};
ghost use Rattle.pgs_codec.specs.Ids.{id, parts, word, name_beside, snap};
ghost use Rattle.pgs_name.specs.Bounds as bounds;
ghost use Rattle.pgs_codec.specs.Answers.{Gives, GivesNumber, Reads, finished};

use crate::decode_error::DecodeError;
use crate::field_error::FieldError;
use crate::short::Short;
use pgs_bytes::{Bytes, is_plain};
use pgs_name::{Family, HEAD, ObjectId};
use std::alloc::Global;
use std::marker::Model;

/// Reads fields from the front of a text. A field that is refused leaves the reader where it was.
#[derive(Drop)]
pub struct Reader<'a> {
    place: usize,
    left: &'a [u8],
}

impl<'a> Model for Reader<'a> {
    ghost use Rattle.std.specs.Prelude.{◌+◌, ◌<◌, ◌^◌, length};
    ghost use Rattle.pgs_codec.specs.Reading.{Rest};

    ghost Value = { Rest };

    ghost view = { λ r. record { place = r.place; left = r.left.now } };

    ghost invariant = { λ r. r.place + length r.left.now < 2 ^ 64 };
}

impl<'a> Reader<'a> {
    /// A reader of a whole text.
    pub fn new(text: &'a [u8]) -> Reader<'a>
        ensures { result ≡ unread text.now }
    {
        Reader {
            place: 0,
            left: text,
        }
    }

    /// How many bytes are left.
    pub fn rest(&self) -> usize
        ensures { result ≡ length self.now.left }
    {
        self.left.len()
    }

    /// How many bytes were read.
    pub fn place(&self) -> usize
        ensures { result ≡ self.now.place }
    {
        self.place
    }

    /// That nothing is left. Otherwise the text is refused at this place.
    pub fn finish(&self) -> Result<(), DecodeError>
        ensures { result ≡ finished self.now }
    {
        if self.left.is_empty() {
            return Ok(());
        }
        Err(DecodeError::Corrupt { at: self.place })
    }

    /// A byte.
    #[tactic(auto, using(crate::proofs::Laws::u8_laws))]
    pub fn take_u8(&mut self) -> Result<u8, Short>
        ensures told { GivesNumber self.old self.new result (u8.read self.old) }
        ensures spelling { IsSpelling u8 }
    {
        match self.left {
            [] => Err(Short { at: self.place }),
            [byte, left @ ..] => {
                let byte = *byte;
                *self = Reader {
                    place: self.place + 1,
                    left,
                };
                Ok(byte)
            }
        }
    }

    /// The one byte that may stand here: `Bad` where it is another.
    #[tactic(auto, using(crate::proofs::Laws::fixed_laws))]
    pub fn take_fixed(&mut self, wanted: u8) -> Result<(), FieldError>
        ensures told { Gives (λ x. tt) self.old self.new result ((fixed wanted).read self.old) }
        ensures spelling { IsSpelling (fixed wanted) }
    {
        let mut ahead = self.here();
        let at = self.place;
        let byte = ahead.take_u8()?;
        if byte != wanted {
            return Err(FieldError::Bad { at });
        }
        *self = ahead;
        Ok(())
    }

    /// A number of four bytes, the lowest first.
    #[tactic(auto, using(crate::proofs::Laws::u32_laws))]
    pub fn take_u32(&mut self) -> Result<u32, Short>
        ensures told { GivesNumber self.old self.new result (u32.read self.old) }
        ensures spelling { IsSpelling u32 }
    {
        if self.left.len() < 4 {
            return Err(Short { at: self.place });
        }
        let (front, left) = self.left.split_at(4);
        *self = Reader {
            place: self.place + 4,
            left,
        };
        Ok(u32::from_le_bytes([front[0], front[1], front[2], front[3]]))
    }

    /// A number of eight bytes, the lowest first.
    #[tactic(auto, using(crate::proofs::Laws::u64_laws))]
    pub fn take_u64(&mut self) -> Result<u64, Short>
        ensures told { GivesNumber self.old self.new result (u64.read self.old) }
        ensures spelling { IsSpelling u64 }
    {
        if self.left.len() < 8 {
            return Err(Short { at: self.place });
        }
        let (front, left) = self.left.split_at(8);
        *self = Reader {
            place: self.place + 8,
            left,
        };
        Ok(u64::from_le_bytes([
            front[0], front[1], front[2], front[3], front[4], front[5], front[6], front[7],
        ]))
    }

    /// A string of bytes, behind its length. It may have so many bytes at most: `Bad` where its length is more.
    #[tactic(auto, using(crate::proofs::Laws::text_laws))]
    pub fn take_bytes(&mut self, alloc: Global, max: u32) -> Result<Bytes, FieldError>
        ensures told { Gives (λ x. x) self.old self.new result ((text max).read self.old) }
        ensures spelling { IsSpelling (text max) }
    {
        let mut ahead = self.here();
        let text = ahead.text(max)?;
        let bytes = Bytes::from_slice(alloc, text)?;
        *self = ahead;
        Ok(bytes)
    }

    /// A position. Each of its parts is a field: its space, its key, its name and its snap. A key that is the name isn't
    /// spelled, and there the name is refused.
    #[tactic(auto, using(crate::proofs::IdLaws::id_laws))]
    pub fn take_id(&mut self, alloc: Global) -> Result<ObjectId, FieldError>
        ensures told { Gives (λ x. x) self.old self.new result (id.read self.old) }
        ensures spelling { IsSpelling id }
    {
        let mut ahead = self.here();
        let id = ahead.id(alloc)?;
        *self = ahead;
        Ok(id)
    }

    // Another reader at the same place.
    fn here(&self) -> Reader<'a>
        ensures { result ≡ self.now }
    {
        Reader {
            place: self.place,
            left: self.left,
        }
    }

    // The bytes of a string, where they stand in the text.
    fn text(&mut self, most: u32) -> Result<&'a [u8], FieldError>
        ensures { Reads (λ x. x.now) self.new result ((text most).read self.old) }
    {
        let at = self.place;
        let length = self.take_u32()?;
        if length > most {
            return Err(FieldError::Bad { at });
        }
        let length = length as usize;
        if self.left.len() < length {
            return Err(FieldError::Short { at });
        }
        let (text, left) = self.left.split_at(length);
        *self = Reader {
            place: self.place + length,
            left,
        };
        Ok(text)
    }

    fn id(&mut self, alloc: Global) -> Result<ObjectId, FieldError>
        ensures { Reads (λ x. x) self.new result (id.read self.old) }
    {
        let space = self.word(64)?;
        let key = self.word(255)?;
        let name = self.name_beside(key)?;
        let snap = self.snap()?;
        let space = Bytes::from_slice(alloc, space)?;
        let key = Bytes::from_slice(alloc, key)?;
        let name = Bytes::from_slice(alloc, name)?;
        let family = Family::new(space, key, name)?;
        Ok(ObjectId { family, snap })
    }

    // A space or a key.
    fn word(&mut self, most: u32) -> Result<&'a [u8], FieldError>
        ensures { Reads (λ x. x.now) self.new result ((word most).read self.old) }
    {
        let at = self.place;
        let word = self.text(most)?;
        if is_word(most as usize, word) {
            return Ok(word);
        }
        Err(FieldError::Bad { at })
    }

    // A name, which isn't the key before it.
    fn name_beside(&mut self, key: &[u8]) -> Result<&'a [u8], FieldError>
        ensures { Reads (λ x. x.now) self.new result ((name_beside key.now).read self.old) }
    {
        let at = self.place;
        let name = self.text(255)?;
        if is_name(name) && key != name {
            return Ok(name);
        }
        Err(FieldError::Bad { at })
    }

    fn snap(&mut self) -> Result<u64, FieldError>
        ensures { Reads (λ x. x) self.new result (snap.read self.old) }
    {
        let at = self.place;
        let snap = self.take_u64()?;
        if 1 <= snap && snap <= HEAD {
            return Ok(snap);
        }
        Err(FieldError::Bad { at })
    }
}

// Whether a space or a key may be this text.
fn is_word(most: usize, text: &[u8]) -> bool
    ensures { result ≡ bounds.is_word most text.now }
{
    text.len() <= most && is_plain(text) && text != b"-".as_slice()
}

// Whether a name may be this text.
fn is_name(text: &[u8]) -> bool
    ensures { result ≡ bounds.is_name text.now }
{
    1 <= text.len() && text.len() <= 255 && is_plain(text)
}
