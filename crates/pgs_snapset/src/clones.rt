ghost use Rattle.std.specs.Prelude.{◌≡◌, [], ◌∷◌, ◌++◌, OnOk, OnErr};

use crate::clone_facts::CloneFacts;
use std::alloc::{AllocError, Global};
use std::marker::Model;

/// The clones of a snapset, which contracts see as their list.
#[derive(Drop)]
pub struct Clones {
    items: Vec<CloneFacts>,
}

impl Model for Clones {
    ghost use Rattle.std.specs.Prelude.{List};
    ghost use Rattle.pgs_snapset.specs.declared.clone_facts.CloneFacts.{CloneFacts};

    ghost Value = { List CloneFacts };

    ghost view = { λ c. c.items.items };
}

impl Clones {
    /// No clone. It takes no memory.
    pub fn new(alloc: Global) -> Clones
        ensures { result ≡ [] }
    {
        Clones {
            items: Vec::new(alloc),
        }
    }

    pub fn from_vec(items: Vec<CloneFacts>) -> Clones
        ensures { result ≡ items.items }
    {
        Clones { items }
    }

    pub fn as_slice(&self) -> &[CloneFacts]
        ensures { result.now ≡ self.now }
    {
        self.items.as_slice()
    }

    /// Puts a clone behind the others.
    pub fn push(&mut self, clone: CloneFacts) -> Result<(), AllocError>
        ensures ok { OnOk result (self.new ≡ self.old ++ clone ∷ []) }
        ensures err { OnErr result (self.new ≡ self.old) }
    {
        self.items.push(clone)?;
        Ok(())
    }
}

impl Clone for Clones {
    ghost is_clone = { λ a b. b ≡ a };

    #[tactic(auto, using(crate::proofs::Copies::copied))]
    fn clone(&self) -> Result<Clones, AllocError> {
        let items = self.items.clone()?;
        Ok(Clones { items })
    }
}
