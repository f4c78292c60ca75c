ghost use Rattle.std.specs.Prelude.{◌≡◌, IsTrue, IfOk, Ok};
ghost use Rattle.std.specs.Option.{option_copied};
ghost use Rattle.pgs_codec.specs.Answers.{Decodes};
ghost use Rattle.pgs_info.specs.declared.info.ObjectInfo.{ObjectInfo};
ghost use Rattle.pgs_info.specs.Info.{info_spelling, info_fits, read_info, info_in};

use crate::reading::take_info;
use crate::writing::put_info;
use pgs_bytes::Bytes;
use pgs_codec::{DecodeError, Reader};
use pgs_name::ObjectId;
use pgs_request::Version;
use std::alloc::{AllocError, Global};

/// What is recorded of an object, a head or a clone. It is kept as an attribute of the object's copies.
#[derive(Drop)]
pub struct ObjectInfo {
    pub id: ObjectId,
    /// The version of the write that changed it last.
    pub version: Version,
    /// The version before that one; 0'0 where there was none.
    pub prior: Version,
    /// Its size in bytes.
    pub size: u64,
    /// The digest of its data, where one is recorded.
    pub data_digest: Option<u32>,
    /// The digest of its omap and its header, where one is recorded.
    pub omap_digest: Option<u32>,
    /// Whether it is the mark of a removed head, kept for the sake of its clones.
    pub whiteout: bool,
}

impl ObjectInfo {
    /// Its one spelling. A name over 4 GiB has none, and is refused as want of memory is.
    #[tactic(auto, using(crate::proofs::InfoLaws::read_again, crate::proofs::InfoLaws::one_info))]
    pub fn encode(&self, alloc: Global) -> Result<Bytes, AllocError>
        ensures spelled { IfOk result (λ b. b ≡ info_spelling self.now) }

        // What is spelled is read, and no other info is spelled so.
        ensures again { IfOk result (λ b. IsTrue (info_fits self.now) → read_info b ≡ Ok self.now) }
        ensures apart { (other : ObjectInfo) → IsTrue (info_fits self.now) → IsTrue (info_fits other) → info_spelling other ≡ info_spelling self.now → other ≡ self.now }
    {
        let mut text = Vec::new(alloc);
        put_info(&mut text, self)?;
        Ok(Bytes::from_vec(text))
    }

    /// The info that a whole text spells.
    pub fn decode(alloc: Global, text: &[u8]) -> Result<ObjectInfo, DecodeError>
        ensures exact { Decodes result (read_info text.now) }

        // What is read was spelled so, and what is spelled so is read.
        ensures found { IfOk result (λ i. IsTrue (info_fits i) × (text.now ≡ info_spelling i)) }
        ensures only { (i : ObjectInfo) → IsTrue (info_fits i) → text.now ≡ info_spelling i → Decodes result (Ok i) }
    {
        decode_all(alloc, text)
    }

    /// The info in an attribute, if it is there and spells one.
    pub fn read(alloc: Global, text: Option<&Bytes>) -> Result<Option<ObjectInfo>, AllocError>
        ensures { IfOk result (λ info. info ≡ info_in (option_copied text.entry)) }
    {
        let Some(text) = text else {
            return Ok(None);
        };
        match decode_all(alloc, text.as_slice()) {
            Ok(info) => Ok(Some(info)),
            Err(DecodeError::Corrupt { .. }) => Ok(None),
            Err(DecodeError::Memory) => Err(AllocError),
        }
    }
}

#[tactic(auto, unfolding(crate::specs::Info::read_info))]
fn decode_all(alloc: Global, text: &[u8]) -> Result<ObjectInfo, DecodeError>
    ensures { Decodes result (read_info text.now) }
{
    let mut reader = Reader::new(text);
    let info = take_info(alloc, &mut reader)?;
    reader.finish()?;
    Ok(info)
}

impl Clone for ObjectInfo {
    ghost is_clone = { λ a b. b ≡ a };

    fn clone(&self) -> Result<ObjectInfo, AllocError> {
        let id = self.id.clone()?;
        Ok(ObjectInfo {
            id,
            version: self.version,
            prior: self.prior,
            size: self.size,
            data_digest: self.data_digest,
            omap_digest: self.omap_digest,
            whiteout: self.whiteout,
        })
    }
}
