//! What differs between the chosen copy of a position and the others.
ghost use Rattle.std.specs.Prelude.{◌≡◌, ◌||◌, ◌++◌, map, IfOk};
ghost use Rattle.std.specs.List.{list_any, filter_map};
ghost use Rattle.std.specs.Option.{option_copied};
ghost use Rattle.pgs_find.specs.ObjectNames.{object_where};
ghost use Rattle.pgs_select.specs.Judging.{told as told_of};
ghost use Rattle.pgs_compare.specs.Objects as defined;
ghost use Rattle.pgs_compare.specs.Parts.{attr_names, entries_seen, told_differs};

use crate::attr_names::AttrNames;
use crate::attrs::{have_other_names, have_other_values, is_other_at};
use pgs_find::{ObjectError, ObjectErrors, object_rows};
use pgs_map::Entry;
use pgs_name::{HEAD, ObjectId};
use pgs_select::{are_apart, told};
use std::alloc::{AllocError, Global};

/// The errors of the copies of a position among each other: what differs between the chosen one and at least one of those before it
/// and behind it. A copy that isn't there, or of which nothing was told, has no part in it.
pub fn object_errors(
    alloc: Global,
    id: &ObjectId,
    chosen: &Entry,
    front: &[Option<&Entry>],
    behind: &[Option<&Entry>],
) -> Result<ObjectErrors, AllocError>
    ensures { IfOk result (λ errors. errors ≡ defined.object_errors id.now chosen.now (filter_map told_of (entries_seen front.now ++ entries_seen behind.now))) }
{
    let attrs = AttrNames::new(alloc)?;
    let mut errors = ObjectErrors::none();
    let rows = object_rows();
    for row in &rows {
        let so = some_other_differs(&attrs, id, chosen, front, behind, row.name);
        errors.note(row.name, so);
    }
    Ok(errors)
}

// Whether a name holds of the chosen copy and one before it or behind it.
fn some_other_differs(
    attrs: &AttrNames,
    id: &ObjectId,
    chosen: &Entry,
    front: &[Option<&Entry>],
    behind: &[Option<&Entry>],
    name: ObjectError,
) -> bool
    requires { attrs.now ≡ attr_names }
    ensures { result ≡ list_any (λ other. defined.differs id.now chosen.now other name) (filter_map told_of (entries_seen front.now ++ entries_seen behind.now)) }
{
    let before = some_differs(attrs, id, chosen, front, name);
    let after = some_differs(attrs, id, chosen, behind, name);
    either(before, after)
}

fn either(a: bool, b: bool) -> bool
    ensures { result ≡ (a || b) }
{
    a || b
}

fn some_differs(
    attrs: &AttrNames,
    id: &ObjectId,
    chosen: &Entry,
    others: &[Option<&Entry>],
    name: ObjectError,
) -> bool
    requires { attrs.now ≡ attr_names }
    ensures { result ≡ list_any (λ other. told_differs id.now chosen.now name (option_copied other)) others.now }
{
    others.iter().any(|other| is_told_and_differs(attrs, id, chosen, *other, name))
}

fn is_told_and_differs(
    attrs: &AttrNames,
    id: &ObjectId,
    chosen: &Entry,
    other: Option<&Entry>,
    name: ObjectError,
) -> bool
    requires { attrs.now ≡ attr_names }
    ensures { result ≡ told_differs id.now chosen.now name (option_copied other.entry) }
{
    match told(other) {
        Some(other) => differs(attrs, id, chosen, other, name),
        None => false,
    }
}

// Whether a name holds of the chosen copy and another one.
fn differs(
    attrs: &AttrNames,
    id: &ObjectId,
    chosen: &Entry,
    other: &Entry,
    name: ObjectError,
) -> bool
    requires { attrs.now ≡ attr_names }
    ensures { result ≡ defined.differs id.now chosen.now other.now name }
{
    match name {
        ObjectError::ObjectInfoInconsistency => {
            is_other_at(&attrs.info, &chosen.attrs, &other.attrs)
        }
        ObjectError::SnapsetInconsistency => {
            id.snap == HEAD && is_other_at(&attrs.snapset, &chosen.attrs, &other.attrs)
        }
        ObjectError::DataDigestMismatch => are_apart(chosen.data_digest, other.data_digest),
        ObjectError::OmapDigestMismatch => are_apart(chosen.omap_digest, other.omap_digest),
        ObjectError::SizeMismatch => chosen.size != other.size,
        ObjectError::AttrValueMismatch => have_other_values(&chosen.attrs, &other.attrs),
        ObjectError::AttrNameMismatch => have_other_names(&chosen.attrs, &other.attrs),
    }
}
