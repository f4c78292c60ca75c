ghost use Rattle.std.specs.Prelude.{◌≡◌, Bool, not};
ghost use Rattle.std.specs.List.{list_all};
ghost use Rattle.pgs_find.specs.ShardNames.{shard_bit, has_shard, no_shard, noted_shard, is_no_shard, shard_where, shard_names};
ghost use Rattle.pgs_find.specs.declared.shard_error.ShardError.{ShardError};

use crate::shard_error::ShardError;

/// A set of errors of one copy of an object, by the bits of their names.
#[derive(Clone, Copy, Debug, PartialEq, Eq, Drop)]
pub struct ShardErrors {
    bits: u16,
}

impl ShardErrors {
    /// No error.
    pub fn none() -> ShardErrors
        ensures { result ≡ no_shard }
    {
        ShardErrors { bits: 0 }
    }

    /// Adds a name, where it holds.
    pub fn note(&mut self, name: ShardError, so: bool)
        ensures { self.new ≡ noted_shard name so self.old }
    {
        if so {
            self.bits |= bit(name);
        }
    }

    /// Whether a name holds.
    #[tactic(auto, using(crate::proofs::ShardLaws::has_law))]
    pub fn has(&self, name: ShardError) -> bool
        ensures told { result ≡ has_shard self.now name }

        // The set of the names that pass a test has a name exactly where it passes.
        ensures law { (test : ShardError → Bool) → has_shard (shard_where test) name ≡ test name }
    {
        self.bits & bit(name) != 0
    }

    /// Whether none holds.
    #[tactic(auto, using(crate::proofs::ShardLaws::none_law))]
    pub fn is_empty(&self) -> bool
        ensures told { result ≡ is_no_shard self.now }

        // The set of the names that pass a test is empty exactly where none passes.
        ensures law { (test : ShardError → Bool) → is_no_shard (shard_where test) ≡ list_all (λ n. not (test n)) shard_names }
    {
        self.bits == 0
    }
}

// The bit of a name.
fn bit(name: ShardError) -> u16
    ensures { result ≡ shard_bit name }
{
    name.row().bit
}
