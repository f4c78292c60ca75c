ghost use Rattle.std.specs.Prelude.{◌≡◌, ◌^◌, map};
ghost use Rattle.std.specs.List.{AllByRecursion};
ghost use Rattle.pgs_find.specs.ObjectNames.{object_names, object_word, object_place, object_bit, StandsOnce};

use crate::row::Row;
use crate::table::{numbered, row_of, rows};

/// An error of the copies of an object among each other.
#[derive(Clone, Copy, Debug, PartialEq, Eq, Drop)]
pub enum ObjectError {
    ObjectInfoInconsistency,
    SnapsetInconsistency,
    DataDigestMismatch,
    OmapDigestMismatch,
    SizeMismatch,
    AttrValueMismatch,
    AttrNameMismatch,
}

// The names with their words, in their order.
macro_rules! object_table {
    ($write:ident $given:tt) => {
        numbered!($write $given ObjectError [
            ObjectInfoInconsistency "object_info_inconsistency",
            SnapsetInconsistency "snapset_inconsistency",
            DataDigestMismatch "data_digest_mismatch",
            OmapDigestMismatch "omap_digest_mismatch",
            SizeMismatch "size_mismatch",
            AttrValueMismatch "attr_value_mismatch",
            AttrNameMismatch "attr_name_mismatch",
        ])
    };
}

impl ObjectError {
    /// Its row in the table.
    pub fn row(self) -> Row<ObjectError>
        ensures name { result.name ≡ self }
        ensures word { result.word.now ≡ object_word self }
        ensures place { result.place ≡ object_place self }
        ensures bit { result.bit ≡ object_bit self }
    {
        object_table!(row_of(self))
    }

    /// How it is written in lists.
    pub fn word(self) -> &'static str
        ensures { result.now ≡ object_word self }
    {
        self.row().word
    }
}

/// The table of these errors, in their order.
pub fn object_rows() -> [Row<ObjectError>; 7]
    ensures names { map (λ row. row.name) result ≡ object_names }
    ensures words { map (λ row. row.word.now) result ≡ map object_word object_names }
    ensures places { map (λ row. row.place) result ≡ map object_place object_names }
    ensures bits { AllByRecursion (λ row. row.bit ≡ 2 ^ row.place) result }

    // Each name stands once, at its place.
    ensures once { (name : ObjectError) → StandsOnce name object_names }
{
    object_table!(rows())
}
