ghost use Rattle.std.specs.Prelude.{◌≡◌, ◌^◌, map};
ghost use Rattle.std.specs.List.{AllByRecursion};
ghost use Rattle.pgs_find.specs.SnapNames.{snap_names, snap_word, snap_place, snap_bit, StandsOnce};

use crate::row::Row;
use crate::table::{numbered, row_of, rows};

/// An error of a head or a clone among the snapshots of its object.
#[derive(Clone, Copy, Debug, PartialEq, Eq, Drop)]
pub enum SnapError {
    Headless,
    SnapsetMissing,
    SnapsetCorrupted,
    SnapsetError,
    InfoMissing,
    InfoCorrupted,
    SizeMismatch,
    CloneMissing,
    ExtraClones,
}

// The names with their words, in their order.
macro_rules! snap_table {
    ($write:ident $given:tt) => {
        numbered!($write $given SnapError [
            Headless "headless",
            SnapsetMissing "snapset_missing",
            SnapsetCorrupted "snapset_corrupted",
            SnapsetError "snapset_error",
            InfoMissing "info_missing",
            InfoCorrupted "info_corrupted",
            SizeMismatch "size_mismatch",
            CloneMissing "clone_missing",
            ExtraClones "extra_clones",
        ])
    };
}

impl SnapError {
    /// Its row in the table.
    pub fn row(self) -> Row<SnapError>
        ensures name { result.name ≡ self }
        ensures word { result.word.now ≡ snap_word self }
        ensures place { result.place ≡ snap_place self }
        ensures bit { result.bit ≡ snap_bit self }
    {
        snap_table!(row_of(self))
    }

    /// How it is written in lists.
    pub fn word(self) -> &'static str
        ensures { result.now ≡ snap_word self }
    {
        self.row().word
    }
}

/// The table of these errors, in their order.
pub fn snap_rows() -> [Row<SnapError>; 9]
    ensures names { map (λ row. row.name) result ≡ snap_names }
    ensures words { map (λ row. row.word.now) result ≡ map snap_word snap_names }
    ensures places { map (λ row. row.place) result ≡ map snap_place snap_names }
    ensures bits { AllByRecursion (λ row. row.bit ≡ 2 ^ row.place) result }

    // Each name stands once, at its place.
    ensures once { (name : SnapError) → StandsOnce name snap_names }
{
    snap_table!(rows())
}
