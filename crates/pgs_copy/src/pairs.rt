ghost use Rattle.std.specs.Prelude.{◌≡◌, ◌≢◌, [], None, OnOk, OnErr, IsSome};
ghost use Rattle.std.specs.Option.{option_copied};
ghost use Rattle.pgs_copy.specs.Pairs.{value_at, with_pair, without, pairs_size, IsInOrder};
ghost use Rattle.pgs_copy.specs.Sizes.{fitting};

use pgs_bytes::Bytes;
use std::alloc::{AllocError, Global};
use std::collections::BTreeMap;
use std::marker::Model;

/// Names with their values, each name once, in the order of the names' bytes: the attributes of a copy, or its omap. Contracts see
/// it as the list of the pairs.
#[derive(Drop)]
pub struct Pairs {
    map: BTreeMap<Bytes, Bytes>,
}

impl Model for Pairs {
    ghost use Rattle.pgs_copy.specs.Pairs.{Pairs as Listed, IsInOrder};

    ghost Value = { Listed };

    ghost view = { λ p. p.map.entries };

    ghost invariant = { λ p. IsInOrder p.map.entries };
}

impl Pairs {
    /// No pair. It takes no memory.
    pub fn new(alloc: Global) -> Pairs
        ensures { result ≡ [] }
    {
        Pairs {
            map: BTreeMap::new(alloc),
        }
    }

    /// The value of a name.
    pub fn get(&self, name: &Bytes) -> Option<&Bytes>
        ensures value { option_copied result ≡ value_at name.now self.now }
        ensures in_order { IsInOrder self.now }
    {
        self.map.get(name)
    }

    /// All pairs, in the order of the names' bytes.
    pub fn as_map(&self) -> &BTreeMap<Bytes, Bytes>
        ensures entries { result.now.entries ≡ self.now }
        ensures in_order { IsInOrder self.now }
    {
        &self.map
    }

    /// Gives a name its value, in the place of the one that it has.
    pub fn set(&mut self, name: Bytes, value: Bytes) -> Result<(), AllocError>
        ensures ok { OnOk result (self.new ≡ with_pair name value self.old) }
        ensures err { OnErr result (self.new ≡ self.old) }
    {
        self.map.insert(name, value)?;
        Ok(())
    }

    /// Gives a name that is there another value. It takes no memory.
    #[tactic(auto, using(crate::proofs::PairLaws::set_there))]
    pub fn replace(&mut self, name: &Bytes, value: Bytes)
        requires { IsSome (value_at name.now self.old) }
        ensures { self.new ≡ with_pair name.now value self.old }
    {
        if let Some(place) = self.map.get_mut(name) {
            *place = value;
        }
    }

    /// The bytes of all names and values, or nothing where they are more than a `u64` holds.
    pub fn size(&self) -> Option<u64>
        ensures { result ≡ fitting (pairs_size self.now) }
    {
        let mut size = 0u64;
        for (name, value) in &self.map {
            size = size.checked_add(name.len() as u64)?;
            size = size.checked_add(value.len() as u64)?;
        }
        Some(size)
    }

    /// Takes a name away, if it is there. It takes no memory.
    pub fn remove(&mut self, name: &Bytes)
        ensures { self.new ≡ without name.now self.old }
    {
        self.map.remove(name);
    }
}

impl Clone for Pairs {
    ghost use Rattle.std.specs.Prelude.{◌≡◌};

    ghost is_clone = { λ a b. b ≡ a };

    #[tactic(auto, using(crate::proofs::PairLaws::cloned_pairs))]
    fn clone(&self) -> Result<Pairs, AllocError> {
        let map = self.map.clone()?;
        Ok(Pairs { map })
    }
}
