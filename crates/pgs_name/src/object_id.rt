ghost use Rattle.std.specs.Prelude.{◌≡◌, ◌≢◌, IsTrue, IfOk, IfErr, OnOk, IsOkUnless, Some, None};
ghost use Rattle.pgs_name.specs.Bounds.{is_named};
ghost use Rattle.pgs_name.specs.Families.{family_named};
ghost use Rattle.pgs_name.specs.Refusal.{refusal_of};

use crate::family::Family;
use crate::name_error::NameError;
use crate::refusals;
use pgs_bytes::Bytes;
use std::alloc::{AllocError, Global};

/// The snap of a head: above that of every clone.
pub const HEAD: u64 = u64::MAX - 1;

/// The position of one stored object, a head or a clone. Positions are ordered by family, then by snap.
#[derive(PartialEq, Eq, PartialOrd, Ord, Drop)]
pub struct ObjectId {
    pub family: Family,
    pub snap: u64,
}

impl ObjectId {
    /// Makes a name of its parts. They are looked at in the order of the parameters, and of each its length before its
    /// bytes. A key that is the name is kept as an empty one is.
    pub fn new(
        alloc: Global,
        space: &[u8],
        key: &[u8],
        name: &[u8],
        snap: u64,
    ) -> Result<ObjectId, NameError>
        ensures ok { OnOk result (refusal_of space.now key.now name.now snap ≡ None) }
        ensures refused { IfErr result (λ e. e ≢ NameError.Memory → refusal_of space.now key.now name.now snap ≡ Some e) }

        // In the words of the bounds alone.
        ensures within { OnOk result (IsTrue (is_named space.now key.now name.now snap)) }
        ensures only_memory { IsTrue (is_named space.now key.now name.now snap) → IsOkUnless result NameError.Memory }

        ensures family { IfOk result (λ id. id.family ≡ family_named space.now key.now name.now) }
        ensures snap { IfOk result (λ id. id.snap ≡ snap) }
    {
        if let Some(refusal) = refusals::refusal(space, key, name, snap) {
            return Err(refusal);
        }
        let space = Bytes::from_slice(alloc, space)?;
        let key = Bytes::from_slice(alloc, key)?;
        let name = Bytes::from_slice(alloc, name)?;
        let family = Family::new(space, key, name)?;
        Ok(ObjectId { family, snap })
    }

    /// The family that the object is of: its name without the snap.
    pub fn family(&self) -> Result<Family, AllocError>
        ensures { IfOk result (λ f. f ≡ self.now.family) }
    {
        self.family.clone()
    }
}

impl Clone for ObjectId {
    ghost is_clone = { λ a b. b ≡ a };

    fn clone(&self) -> Result<ObjectId, AllocError> {
        let family = self.family.clone()?;
        Ok(ObjectId {
            family,
            snap: self.snap,
        })
    }
}
