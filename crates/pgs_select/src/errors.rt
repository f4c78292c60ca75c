//! The errors of one copy.
ghost use Rattle.std.specs.Prelude.{◌≡◌, ℕ, ◌≢◌, None, not, ◌&&◌};
ghost use Rattle.std.specs.Option.{option_copied};
ghost use Rattle.pgs_name.specs.declared.object_id.ObjectId.{ObjectId as Position};
ghost use Rattle.pgs_facts.specs.Facts as facts_defined;
ghost use Rattle.pgs_find.specs.ShardNames.{shard_where};
ghost use Rattle.pgs_select.specs.Errors as defined;
ghost use Rattle.pgs_select.specs.Judging.{told as told_of, with_info_errors, with_snapset_errors, with_mismatches, agree};

use crate::judged::Judged;
use pgs_facts::{CopyFacts, has_other_size};
use pgs_find::{ShardError, ShardErrors};
use pgs_info::ObjectInfo;
use pgs_map::Entry;
use pgs_name::{HEAD, ObjectId};

/// An entry, where its size and attributes were told.
pub fn told(entry: Option<&Entry>) -> Option<&Entry>
    ensures { option_copied result ≡ told_of (option_copied entry.entry) }
{
    let entry = entry?;
    if entry.stat_failed {
        return None;
    }
    Some(entry)
}

/// The errors of a copy beside the info of the chosen one, if there is one: those that it has by itself, and what differs from that
/// info.
pub fn errors_beside(
    judged: &Judged,
    entry: Option<&Entry>,
    chosen: Option<&ObjectInfo>,
) -> ShardErrors
    ensures { (id : Position) → judged.now.errors ≡ defined.shard_errors id (option_copied entry.entry) None → result ≡ defined.shard_errors id (option_copied entry.entry) (option_copied chosen.entry) }
{
    let mut errors = judged.errors;
    if let Some(entry) = told(entry) {
        note_mismatches(&mut errors, entry, chosen);
    }
    errors
}

// Notes what differs from the info of the chosen copy.
fn note_mismatches(errors: &mut ShardErrors, entry: &Entry, chosen: Option<&ObjectInfo>)
    ensures { errors.new ≡ with_mismatches entry.now (option_copied chosen.entry) errors.old }
{
    errors.note(
        ShardError::SizeMismatchInfo,
        has_other_size(entry.size, chosen),
    );
    errors.note(
        ShardError::DataDigestMismatchInfo,
        are_apart(data_digest_of(chosen), entry.data_digest),
    );
    errors.note(
        ShardError::OmapDigestMismatchInfo,
        are_apart(omap_digest_of(chosen), entry.omap_digest),
    );
}

// The errors that a copy has by itself, where its size and attributes were told.
pub fn own_errors(id: &ObjectId, entry: &Entry, facts: &CopyFacts) -> ShardErrors
    requires { facts.now ≡ facts_defined.facts_of entry.now }
    ensures { result ≡ shard_where (defined.holds id.now entry.now None) }
{
    let mut errors = ShardErrors::none();
    errors.note(ShardError::ReadError, entry.read_failed);
    note_info(&mut errors, id, facts);
    if id.snap == HEAD {
        note_snapset(&mut errors, facts);
    }
    errors.note(ShardError::ObjSizeInfoMismatch, facts.has_wrong_size());
    errors
}

fn note_info(errors: &mut ShardErrors, id: &ObjectId, facts: &CopyFacts)
    ensures { errors.new ≡ with_info_errors id.now facts.now errors.old }
{
    errors.note(ShardError::InfoMissing, facts.misses_info());
    errors.note(ShardError::InfoCorrupted, facts.has_bad_info(id));
}

fn note_snapset(errors: &mut ShardErrors, facts: &CopyFacts)
    ensures { errors.new ≡ with_snapset_errors facts.now errors.old }
{
    errors.note(ShardError::SnapsetMissing, facts.misses_snapset());
    errors.note(ShardError::SnapsetCorrupted, facts.has_bad_snapset());
}

// Whether each digest that both a copy and its info have is the same.
pub fn agrees(entry: &Entry, info: Option<&ObjectInfo>) -> bool
    ensures { result ≡ agree entry.now (option_copied info.entry) }
{
    let data = are_apart(data_digest_of(info), entry.data_digest);
    let omap = are_apart(omap_digest_of(info), entry.omap_digest);
    !data && !omap
}

// Whether two digests are both there, and differ.
pub fn are_apart(a: Option<u32>, b: Option<u32>) -> bool
    ensures { result ≡ defined.are_apart a b }
{
    let Some(a) = a else {
        return false;
    };
    let Some(b) = b else {
        return false;
    };
    a != b
}

fn data_digest_of(info: Option<&ObjectInfo>) -> Option<u32>
    ensures { result ≡ defined.data_digest_of (option_copied info.entry) }
{
    let info = info?;
    info.data_digest
}

fn omap_digest_of(info: Option<&ObjectInfo>) -> Option<u32>
    ensures { result ≡ defined.omap_digest_of (option_copied info.entry) }
{
    let info = info?;
    info.omap_digest
}
