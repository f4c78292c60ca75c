ghost use Rattle.std.specs.Prelude.{◌≡◌, Bool, not};
ghost use Rattle.std.specs.List.{list_all};
ghost use Rattle.pgs_find.specs.SnapNames.{snap_bit, has_snap, no_snap, noted_snap, is_no_snap, snap_where, snap_names};
ghost use Rattle.pgs_find.specs.declared.snap_error.SnapError.{SnapError};

use crate::snap_error::SnapError;

/// A set of errors of a head or a clone among the snapshots of its object, by the bits of their names.
#[derive(Clone, Copy, Debug, PartialEq, Eq, Drop)]
pub struct SnapErrors {
    bits: u16,
}

impl SnapErrors {
    /// No error.
    pub fn none() -> SnapErrors
        ensures { result ≡ no_snap }
    {
        SnapErrors { bits: 0 }
    }

    /// Adds a name, where it holds.
    pub fn note(&mut self, name: SnapError, so: bool)
        ensures { self.new ≡ noted_snap name so self.old }
    {
        if so {
            self.bits |= bit(name);
        }
    }

    /// Whether a name holds.
    #[tactic(auto, using(crate::proofs::SnapLaws::has_law))]
    pub fn has(&self, name: SnapError) -> bool
        ensures told { result ≡ has_snap self.now name }

        // The set of the names that pass a test has a name exactly where it passes.
        ensures law { (test : SnapError → Bool) → has_snap (snap_where test) name ≡ test name }
    {
        self.bits & bit(name) != 0
    }

    /// Whether none holds.
    #[tactic(auto, using(crate::proofs::SnapLaws::none_law))]
    pub fn is_empty(&self) -> bool
        ensures told { result ≡ is_no_snap self.now }

        // The set of the names that pass a test is empty exactly where none passes.
        ensures law { (test : SnapError → Bool) → is_no_snap (snap_where test) ≡ list_all (λ n. not (test n)) snap_names }
    {
        self.bits == 0
    }
}

// The bit of a name.
fn bit(name: SnapError) -> u16
    ensures { result ≡ snap_bit name }
{
    name.row().bit
}
