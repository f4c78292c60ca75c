ghost use Rattle.std.specs.Prelude.{◌≡◌, ◌↔◌, IsTrue, IfOk, IsNone, Ok, nat_le};
ghost use Rattle.std.specs.List.{list_all};
ghost use Rattle.std.specs.Option.{option_copied};
ghost use Rattle.pgs_codec.specs.Answers.{Decodes};
ghost use Rattle.pgs_snapset.specs.declared.snapset.SnapSet.{SnapSet};
ghost use Rattle.pgs_snapset.specs.Spelling.{snapset_spelling, snapset_fits, read_snapset, snapset_in};
ghost use Rattle.pgs_snapset.specs.Cloning.{clone_made};
ghost use Rattle.pgs_snapset.specs.WellFormed.{is_well_formed};

use crate::clone_facts::CloneFacts;
use crate::clones::Clones;
use crate::cloning::clone_made;
use crate::forming::{are_clones, are_upto};
use crate::reading::take_snapset;
use crate::writing::put_snapset;
use pgs_bytes::Bytes;
use pgs_codec::{DecodeError, Reader};
use std::alloc::{AllocError, Global};

/// Which clones an object has, and up to which snap they were made. It is kept as an attribute of the object's head.
#[derive(Drop)]
pub struct SnapSet {
    /// The newest snap that a write told of.
    pub seq: u64,
    /// The clones, the oldest first.
    pub clones: Clones,
}

impl SnapSet {
    /// Its one spelling. Where it has more than 4,294,967,295 clones, or one of them as many snaps, it has none, and is
    /// refused as want of memory is.
    #[tactic(auto, using(crate::proofs::SnapSetLaws::read_again, crate::proofs::SnapSetLaws::one_snapset))]
    pub fn encode(&self, alloc: Global) -> Result<Bytes, AllocError>
        ensures spelled { IfOk result (λ b. b ≡ snapset_spelling self.now) }

        // What is spelled is read, and no other snapset is spelled so.
        ensures again { IfOk result (λ b. IsTrue (snapset_fits self.now) → read_snapset b ≡ Ok self.now) }
        ensures apart { (other : SnapSet) → IsTrue (snapset_fits self.now) → IsTrue (snapset_fits other) → snapset_spelling other ≡ snapset_spelling self.now → other ≡ self.now }
    {
        let mut text = Vec::new(alloc);
        put_snapset(&mut text, self)?;
        Ok(Bytes::from_vec(text))
    }

    /// The snapset that a whole text spells. Any numbers are allowed.
    pub fn decode(alloc: Global, text: &[u8]) -> Result<SnapSet, DecodeError>
        ensures exact { Decodes result (read_snapset text.now) }

        // What is read was spelled so, and what is spelled so is read.
        ensures found { IfOk result (λ s. IsTrue (snapset_fits s) × (text.now ≡ snapset_spelling s)) }
        ensures only { (s : SnapSet) → IsTrue (snapset_fits s) → text.now ≡ snapset_spelling s → Decodes result (Ok s) }
    {
        decode_all(alloc, text)
    }

    /// The snapset in an attribute, if it is there and spells one.
    pub fn read(alloc: Global, text: Option<&Bytes>) -> Result<Option<SnapSet>, AllocError>
        ensures { IfOk result (λ set. set ≡ snapset_in (option_copied text.entry)) }
    {
        let Some(text) = text else {
            return Ok(None);
        };
        match decode_all(alloc, text.as_slice()) {
            Ok(set) => Ok(Some(set)),
            Err(DecodeError::Corrupt { .. }) => Ok(None),
            Err(DecodeError::Memory) => Err(AllocError),
        }
    }

    /// The clone that a write makes of a head of a size. The write's context is its seq and its snaps, the newest first.
    pub fn clone_for(
        &self,
        alloc: Global,
        seq: u64,
        snaps: &[u64],
        size: u64,
    ) -> Result<Option<CloneFacts>, AllocError>
        ensures made { IfOk result (λ made. made ≡ clone_made self.now seq snaps.now size) }

        // No clone is made exactly where no snap is newer.
        ensures none { IfOk result (λ made. IsNone made ↔ IsTrue (list_all (λ s. nat_le s self.now.seq) snaps.now)) }
    {
        clone_made(alloc, self, seq, snaps, size)
    }

    /// Whether its clones go up to at most its seq, and each has its own snaps, as those that writes make.
    pub fn is_well_formed(&self) -> bool
        ensures { result ≡ is_well_formed self.now }
    {
        are_clones(self.clones.as_slice()) && are_upto(self.seq, self.clones.as_slice())
    }
}

#[tactic(auto, unfolding(crate::specs::Spelling::read_snapset))]
fn decode_all(alloc: Global, text: &[u8]) -> Result<SnapSet, DecodeError>
    ensures { Decodes result (read_snapset text.now) }
{
    let mut reader = Reader::new(text);
    let set = take_snapset(alloc, &mut reader)?;
    reader.finish()?;
    Ok(set)
}

impl Clone for SnapSet {
    ghost is_clone = { λ a b. b ≡ a };

    fn clone(&self) -> Result<SnapSet, AllocError> {
        let clones = self.clones.clone()?;
        Ok(SnapSet {
            seq: self.seq,
            clones,
        })
    }
}
