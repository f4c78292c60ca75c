ghost use Rattle.std.specs.Prelude.{◌≡◌, Bool, not};
ghost use Rattle.std.specs.List.{list_all};
ghost use Rattle.pgs_find.specs.ObjectNames.{object_bit, has_object, no_object, noted_object, is_no_object, object_where, object_names};
ghost use Rattle.pgs_find.specs.declared.object_error.ObjectError.{ObjectError};

use crate::object_error::ObjectError;

/// A set of errors of the copies of an object among each other, by the bits of their names.
#[derive(Clone, Copy, Debug, PartialEq, Eq, Drop)]
pub struct ObjectErrors {
    bits: u16,
}

impl ObjectErrors {
    /// No error.
    pub fn none() -> ObjectErrors
        ensures { result ≡ no_object }
    {
        ObjectErrors { bits: 0 }
    }

    /// Adds a name, where it holds.
    pub fn note(&mut self, name: ObjectError, so: bool)
        ensures { self.new ≡ noted_object name so self.old }
    {
        if so {
            self.bits |= bit(name);
        }
    }

    /// Whether a name holds.
    #[tactic(auto, using(crate::proofs::ObjectLaws::has_law))]
    pub fn has(&self, name: ObjectError) -> bool
        ensures told { result ≡ has_object self.now name }

        // The set of the names that pass a test has a name exactly where it passes.
        ensures law { (test : ObjectError → Bool) → has_object (object_where test) name ≡ test name }
    {
        self.bits & bit(name) != 0
    }

    /// Whether none holds.
    #[tactic(auto, using(crate::proofs::ObjectLaws::none_law))]
    pub fn is_empty(&self) -> bool
        ensures told { result ≡ is_no_object self.now }

        // The set of the names that pass a test is empty exactly where none passes.
        ensures law { (test : ObjectError → Bool) → is_no_object (object_where test) ≡ list_all (λ n. not (test n)) object_names }
    {
        self.bits == 0
    }
}

// The bit of a name.
fn bit(name: ObjectError) -> u16
    ensures { result ≡ object_bit name }
{
    name.row().bit
}
