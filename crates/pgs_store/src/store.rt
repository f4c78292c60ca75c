ghost use Rattle.std.specs.Prelude.{◌≡◌, ℕ, OnOk, OnErr, IfOk, if◌then◌else◌};
ghost use Rattle.std.specs.Option.{option_copied};
ghost use Rattle.std.specs.Ordering.{nat_cmp};
ghost use Rattle.std.specs.BTreeMap.{get};
ghost use Rattle.pgs_name.specs.Families.{same_family};
ghost use Rattle.pgs_name.specs.Families.{Family as FamilyName};
ghost use Rattle.pgs_range.specs.Listed.{IsNext};
ghost use Rattle.pgs_store.specs.Stores.{AreSame, nothing_stored, is_stored, affected, harmed};
ghost use Rattle.pgs_store.specs.Kept.{stored, in_map};

use crate::firsts;
use pgs_copy::{Damage, Effect, ObjCopy, apply_damage, apply_effects};
use pgs_name::{Family, ObjectId};
use pgs_range::{Bound, Cursor};
use std::alloc::{AllocError, Global};
use std::collections::BTreeMap;

/// Copies of objects in memory, by family and snap. A family whose copies are all gone may stay, with none.
#[derive(Drop)]
pub struct Store {
    families: BTreeMap<Family, BTreeMap<u64, ObjCopy>>,
}

impl Store {
    /// A store that holds nothing. It takes no memory.
    pub fn new(alloc: Global) -> Store
        ensures { AreSame (stored result) nothing_stored }
    {
        Store {
            families: BTreeMap::new(alloc),
        }
    }

    /// The copies of a family by snap, where the store has a map of them, which may be empty.
    pub fn copies(&self, family: &Family) -> Option<&BTreeMap<u64, ObjCopy>>
        ensures { in_map (option_copied result) ≡ stored self.now family.now }
    {
        self.families.get(family)
    }

    /// The copy at a snap of a family.
    pub fn copy(&self, family: &Family, snap: u64) -> Option<&ObjCopy>
        ensures { option_copied result ≡ stored self.now family.now snap }
    {
        let copies = self.families.get(family)?;
        copies.get(&snap)
    }

    /// The least position that is stored behind a cursor and below a bound.
    #[tactic(auto, using(crate::proofs::Nexts::nexts))]
    pub fn next(&self, cursor: &Cursor, to: &Bound) -> Result<Option<ObjectId>, AllocError>
        ensures { IfOk result (λ next. IsNext (is_stored (stored self.now)) cursor.now to.now next) }
    {
        let Some((family, snap)) = firsts::behind(&self.families, cursor) else {
            return Ok(None);
        };
        if !to.is_above(family) {
            return Ok(None);
        }
        let family = family.clone()?;
        Ok(Some(ObjectId { family, snap }))
    }

    // Puts a map in the place of the copies of a family.
    #[tactic(auto, using(crate::proofs::Puts::in_map_put))]
    fn put(&mut self, family: &Family, copies: BTreeMap<u64, ObjCopy>) -> Result<(), AllocError>
        ensures ok { OnOk result ((f : FamilyName) (q : ℕ) → stored self.new f q ≡ (if same_family family.now f then get nat_cmp copies q else stored self.old f q)) }
        ensures err { OnErr result (AreSame (stored self.new) (stored self.old)) }
    {
        let family = family.clone()?;
        self.families.insert(family, copies)?;
        Ok(())
    }

    /// Applies effects to the copies of a family, in turn, or none of them where memory runs out.
    pub fn apply(
        &mut self,
        alloc: Global,
        family: &Family,
        effects: &[(u64, Effect)],
    ) -> Result<(), AllocError>
        ensures ok { OnOk result (AreSame (stored self.new) (affected family.now effects.now (stored self.old))) }
        ensures err { OnErr result (AreSame (stored self.new) (stored self.old)) }
    {
        if let Some(copies) = self.families.get_mut(family) {
            apply_effects(alloc, copies, effects)?;
            return Ok(());
        }
        let mut copies = BTreeMap::new(alloc);
        apply_effects(alloc, &mut copies, effects)?;
        self.put(family, copies)
    }

    /// Does damage to the copy at a snap of a family, or nothing where memory runs out.
    pub fn damage(
        &mut self,
        alloc: Global,
        family: &Family,
        snap: u64,
        damage: &Damage,
    ) -> Result<(), AllocError>
        ensures ok { OnOk result (AreSame (stored self.new) (harmed family.now snap damage.now (stored self.old))) }
        ensures err { OnErr result (AreSame (stored self.new) (stored self.old)) }
    {
        if let Some(copies) = self.families.get_mut(family) {
            apply_damage(alloc, copies, snap, damage)?;
            return Ok(());
        }
        let mut copies = BTreeMap::new(alloc);
        apply_damage(alloc, &mut copies, snap, damage)?;
        self.put(family, copies)
    }
}
