ghost use Rattle.std.specs.Prelude.{◌≡◌, Some, refl, IfOk};
ghost use Rattle.std.specs.Cmp.{po};
ghost use Rattle.std.specs.Cmp.Rules.{comparing};
ghost use Rattle.std.proofs.Common.{rules};
ghost use Rattle.pgs_name.specs.Bounds.{kept_key};
ghost use Rattle.pgs_name.specs.Families.{same_family, effective_key, family_named};
ghost use Rattle.pgs_name.specs.Order.{hash_of, family_cmp};
ghost use Rattle.pgs_name.specs.Total.{family_total, family_ties};

use crate::hashing::{hash_of_parts, place_of_parts};
use crate::refusals::kept;
use pgs_bytes::Bytes;
use std::alloc::AllocError;
use std::cmp::Ordering;
use std::marker::Model;

/// What the head and the clones of one object share: a name without its snap. Families are ordered by their hash with its
/// bits reversed, then by space, key and name.
#[derive(Drop)]
pub struct Family {
    // The hash with its bits reversed, which is made once.
    place: u32,
    space: Bytes,
    // The key that it is placed by: the name where no key is given.
    key: Bytes,
    name: Bytes,
}

impl Model for Family {
    ghost use Rattle.std.specs.Prelude.{◌≡◌};
    ghost use Rattle.pgs_name.specs.Families.{Family as Parts};
    ghost use Rattle.pgs_name.specs.Order.{place_of};

    ghost Value = { Parts };

    ghost view = { λ f. record { space = f.space; key = f.key; name = f.name } };

    ghost invariant = { λ f. f.place ≡ place_of (record { space = f.space; key = f.key; name = f.name }) };
}

impl Family {
    /// The family of these parts. An empty key stands for the name.
    pub fn new(space: Bytes, key: Bytes, name: Bytes) -> Result<Family, AllocError>
        ensures { IfOk result (λ f. f ≡ family_named space key name) }
    {
        let key = effective(key, &name)?;
        let place = place_of_parts(space.as_slice(), key.as_slice());
        Ok(Family {
            place,
            space,
            key,
            name,
        })
    }

    /// The namespace.
    pub fn space(&self) -> &[u8]
        ensures { result.now ≡ self.now.space }
    {
        self.space.as_slice()
    }

    /// The key that it is placed by.
    pub fn key(&self) -> &[u8]
        ensures { result.now ≡ self.now.key }
    {
        self.key.as_slice()
    }

    /// The key as it is written: empty where it is the name.
    pub fn kept_key(&self) -> &[u8]
        ensures { result.now ≡ kept_key self.now.key self.now.name }
    {
        kept(self.key.as_slice(), self.name.as_slice())
    }

    /// The name.
    pub fn name(&self) -> &[u8]
        ensures { result.now ≡ self.now.name }
    {
        self.name.as_slice()
    }

    /// The hash by which its group is chosen. It takes no memory.
    pub fn hash(&self) -> u32
        ensures { result ≡ hash_of self.now }
    {
        hash_of_parts(self.space.as_slice(), self.key.as_slice())
    }
}

// The key that a name is placed by.
fn effective(key: Bytes, name: &Bytes) -> Result<Bytes, AllocError>
    ensures { IfOk result (λ k. k ≡ effective_key key name.now) }
{
    if key.is_empty() {
        name.clone()
    } else {
        Ok(key)
    }
}

impl Clone for Family {
    ghost is_clone = { λ a b. b ≡ a };

    fn clone(&self) -> Result<Family, AllocError> {
        let space = self.space.clone()?;
        let key = self.key.clone()?;
        let name = self.name.clone()?;
        Ok(Family {
            place: self.place,
            space,
            key,
            name,
        })
    }
}

impl PartialEq for Family {
    ghost eq = { same_family };

    ghost laws = { Prim.search (comparing, rules) };

    fn eq(&self, other: &Family) -> bool {
        self.space == other.space && self.key == other.key && self.name == other.name
    }
}

impl Eq for Family {
    ghost laws = { Prim.search (comparing, rules) };
}

impl PartialOrd for Family {
    ghost partial_cmp = { λ a b. Some (family_cmp a b) };

    ghost laws = { po family_total family_ties };

    fn partial_cmp(&self, other: &Family) -> Option<Ordering> {
        Some(self.cmp(other))
    }
}

impl Ord for Family {
    ghost cmp = { family_cmp };

    ghost total = { family_total };

    ghost matches_partial_cmp = { λ a b. refl };

    ghost matches_eq = { family_ties };

    fn cmp(&self, other: &Family) -> Ordering {
        let places = self.place.cmp(&other.place);
        let spaces = self.space.cmp(&other.space);
        let keys = self.key.cmp(&other.key);
        let names = self.name.cmp(&other.name);
        places.then(spaces).then(keys).then(names)
    }
}
