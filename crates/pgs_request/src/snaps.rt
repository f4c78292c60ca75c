ghost use Rattle.std.specs.Prelude.{◌≡◌, [], ◌∷◌, ◌++◌, OnOk, OnErr};

use std::alloc::{AllocError, Global};
use std::marker::Model;

/// A list of snaps, which contracts see as the list of their numbers.
#[derive(Drop)]
pub struct Snaps {
    items: Vec<u64>,
}

impl Model for Snaps {
    ghost use Rattle.std.specs.Prelude.{ℕ, List};

    ghost Value = { List ℕ };

    ghost view = { λ s. s.items.items };
}

impl Snaps {
    /// No snap. It takes no memory.
    pub fn new(alloc: Global) -> Snaps
        ensures { result ≡ [] }
    {
        Snaps {
            items: Vec::new(alloc),
        }
    }

    pub fn from_vec(items: Vec<u64>) -> Snaps
        ensures { result ≡ items.items }
    {
        Snaps { items }
    }

    pub fn as_slice(&self) -> &[u64]
        ensures { result.now ≡ self.now }
    {
        self.items.as_slice()
    }

    /// Puts a snap behind the others.
    pub fn push(&mut self, snap: u64) -> Result<(), AllocError>
        ensures ok { OnOk result (self.new ≡ self.old ++ snap ∷ []) }
        ensures err { OnErr result (self.new ≡ self.old) }
    {
        self.items.push(snap)?;
        Ok(())
    }
}

impl Clone for Snaps {
    ghost is_clone = { λ a b. b ≡ a };

    fn clone(&self) -> Result<Snaps, AllocError> {
        let items = self.items.clone()?;
        Ok(Snaps { items })
    }
}
