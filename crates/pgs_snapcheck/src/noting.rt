//! Noting which names hold of a position.
ghost use Rattle.std.specs.Prelude.{◌≡◌, ◌&&◌};
ghost use Rattle.std.specs.Option.{option_copied};
ghost use Rattle.pgs_facts.specs.Facts as told;
ghost use Rattle.pgs_find.specs.SnapNames.{noted_snap, snap_where};
ghost use Rattle.pgs_snapcheck.specs.Conditions as conditions;

use crate::looking::{
    has_bad_info, has_bad_snapset, has_ill_formed, has_other_size, is_headless, misses_info,
    misses_snapset,
};
use crate::view::View;
use pgs_find::{SnapError, SnapErrors};

/// The names that hold of a position beside the head of its family, where such clones are missing from it and such are extra
/// beside it.
pub fn errors_of(head: Option<&View>, view: &View, missing: &[u64], extra: &[u64]) -> SnapErrors
    ensures { result ≡ snap_where (conditions.holds (option_copied head.entry) missing.now extra.now view.now) }
{
    let mut errors = SnapErrors::none();
    errors.note(SnapError::Headless, is_headless(head, view));
    note_snapset(&mut errors, view);
    note_info(&mut errors, view);
    errors.note(SnapError::SizeMismatch, has_other_size(head, view));
    note_clones(&mut errors, missing, extra);
    errors
}

fn note_snapset(errors: &mut SnapErrors, view: &View)
    ensures { errors.new ≡ noted_snap SnapError.SnapsetError (conditions.holds_ill_formed view.now) (noted_snap SnapError.SnapsetCorrupted (conditions.holds_bad_snapset view.now) (noted_snap SnapError.SnapsetMissing (conditions.lacks_snapset view.now) errors.old)) }
{
    errors.note(SnapError::SnapsetMissing, misses_snapset(view));
    errors.note(SnapError::SnapsetCorrupted, has_bad_snapset(view));
    errors.note(SnapError::SnapsetError, has_ill_formed(view));
}

fn note_info(errors: &mut SnapErrors, view: &View)
    ensures { errors.new ≡ noted_snap SnapError.InfoCorrupted (conditions.has_facts (told.has_bad_info view.now.id) view.now.facts) (noted_snap SnapError.InfoMissing (conditions.has_facts told.misses_info view.now.facts) errors.old) }
{
    errors.note(SnapError::InfoMissing, misses_info(view));
    errors.note(SnapError::InfoCorrupted, has_bad_info(view));
}

fn note_clones(errors: &mut SnapErrors, missing: &[u64], extra: &[u64])
    ensures { errors.new ≡ noted_snap SnapError.ExtraClones (conditions.is_some_number extra.now) (noted_snap SnapError.CloneMissing (conditions.is_some_number missing.now) errors.old) }
{
    errors.note(SnapError::CloneMissing, !missing.is_empty());
    errors.note(SnapError::ExtraClones, !extra.is_empty());
}
