ghost use Rattle.std.specs.Prelude.{◌≡◌, ◌≤◌, IfOk, OnOk, OnErr};
ghost use Rattle.std.specs.Option.{option_copied};
ghost use Rattle.pgs_name.specs.declared.object_id.TheConstants.{HEAD};
ghost use Rattle.pgs_store.specs.Stores.{AreSame, nothing_stored, affected};
ghost use Rattle.pgs_op.specs.Clean.{clean, held_by, held_with};
ghost use Rattle.pgs_op.specs.declared.limits.TheConstants.{STORE_MAX};

use crate::held::Held;
use crate::holding::held_after;
use pgs_copy::{Effect, ObjCopy};
use pgs_name::{Family, HEAD};
use pgs_store::Store;
use std::alloc::{AllocError, Global};

/// The store of a group's accepted writes alone, which no member's damage touches. It counts the bytes that its copies hold.
#[derive(Drop)]
pub struct CleanStore {
    store: Store,
    held: Held,
}

impl CleanStore {
    /// A store that holds nothing. It takes no memory.
    pub fn new(alloc: Global) -> CleanStore
        ensures stored { AreSame (clean result) nothing_stored }
        ensures held { held_by result ≡ 0 }
    {
        CleanStore {
            store: Store::new(alloc),
            held: Held { bytes: 0 },
        }
    }

    /// The head of a family.
    pub fn head(&self, family: &Family) -> Option<&ObjCopy>
        ensures { option_copied result ≡ clean self.now family.now HEAD }
    {
        self.store.copy(family, HEAD)
    }

    /// The copy at a snap of a family.
    pub fn copy(&self, family: &Family, snap: u64) -> Option<&ObjCopy>
        ensures { option_copied result ≡ clean self.now family.now snap }
    {
        self.store.copy(family, snap)
    }

    /// How many bytes its copies hold.
    pub fn held(&self) -> u64
        ensures held { result ≡ held_by self.now }
        ensures within { result ≤ STORE_MAX }
    {
        self.held.bytes
    }
    /// How many bytes they would hold after effects on the copies of a family. A number over 64 bits is refused as want of memory is.
    pub fn held_with(
        &self,
        alloc: Global,
        family: &Family,
        effects: &[(u64, Effect)],
    ) -> Result<u64, AllocError>
        ensures { IfOk result (λ held. held ≡ held_with self.now family.now effects.now) }
    {
        held_after(alloc, self.held.bytes, self.store.copies(family), effects)
    }

    /// Applies effects to the copies of a family, or none of them where memory runs out.
    pub fn apply(
        &mut self,
        alloc: Global,
        family: &Family,
        effects: &[(u64, Effect)],
    ) -> Result<(), AllocError>
        requires { held_with self.old family.now effects.now ≤ STORE_MAX }
        ensures ok { OnOk result (AreSame (clean self.new) (affected family.now effects.now (clean self.old))) }
        ensures held { OnOk result (held_by self.new ≡ held_with self.old family.now effects.now) }
        ensures err { OnErr result (AreSame (clean self.new) (clean self.old)) }
        ensures err_held { OnErr result (held_by self.new ≡ held_by self.old) }
    {
        let bytes = self.held_with(alloc, family, effects)?;
        self.store.apply(alloc, family, effects)?;
        self.held = Held { bytes };
        Ok(())
    }
}
