ghost use Rattle.std.specs.Prelude.{◌≡◌, ◌^◌, map};
ghost use Rattle.std.specs.List.{AllByRecursion};
ghost use Rattle.pgs_find.specs.ShardNames.{shard_names, shard_word, shard_place, shard_bit, StandsOnce};

use crate::row::Row;
use crate::table::{numbered, row_of, rows};

/// An error of one copy of an object.
#[derive(Clone, Copy, Debug, PartialEq, Eq, Drop)]
pub enum ShardError {
    Missing,
    StatError,
    ReadError,
    InfoMissing,
    InfoCorrupted,
    SnapsetMissing,
    SnapsetCorrupted,
    ObjSizeInfoMismatch,
    SizeMismatchInfo,
    DataDigestMismatchInfo,
    OmapDigestMismatchInfo,
}

// The names with their words, in their order.
macro_rules! shard_table {
    ($write:ident $given:tt) => {
        numbered!($write $given ShardError [
            Missing "missing",
            StatError "stat_error",
            ReadError "read_error",
            InfoMissing "info_missing",
            InfoCorrupted "info_corrupted",
            SnapsetMissing "snapset_missing",
            SnapsetCorrupted "snapset_corrupted",
            ObjSizeInfoMismatch "obj_size_info_mismatch",
            SizeMismatchInfo "size_mismatch_info",
            DataDigestMismatchInfo "data_digest_mismatch_info",
            OmapDigestMismatchInfo "omap_digest_mismatch_info",
        ])
    };
}

impl ShardError {
    /// Its row in the table.
    pub fn row(self) -> Row<ShardError>
        ensures name { result.name ≡ self }
        ensures word { result.word.now ≡ shard_word self }
        ensures place { result.place ≡ shard_place self }
        ensures bit { result.bit ≡ shard_bit self }
    {
        shard_table!(row_of(self))
    }

    /// How it is written in lists.
    pub fn word(self) -> &'static str
        ensures { result.now ≡ shard_word self }
    {
        self.row().word
    }
}

/// The table of these errors, in their order.
pub fn shard_rows() -> [Row<ShardError>; 11]
    ensures names { map (λ row. row.name) result ≡ shard_names }
    ensures words { map (λ row. row.word.now) result ≡ map shard_word shard_names }
    ensures places { map (λ row. row.place) result ≡ map shard_place shard_names }
    ensures bits { AllByRecursion (λ row. row.bit ≡ 2 ^ row.place) result }

    // Each name stands once, at its place.
    ensures once { (name : ShardError) → StandsOnce name shard_names }
{
    shard_table!(rows())
}
