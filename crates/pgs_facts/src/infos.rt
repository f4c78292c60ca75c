//! What an object info says of a copy.
ghost use Rattle.std.specs.Prelude.{◌≡◌};
ghost use Rattle.std.specs.Option.{option_copied};
ghost use Rattle.pgs_facts.specs.Facts as defined;

use pgs_info::ObjectInfo;
use pgs_name::ObjectId;

// Whether an info is there, and is of this position.
pub fn is_info_of(id: &ObjectId, info: Option<&ObjectInfo>) -> bool
    ensures { result ≡ defined.is_info_of id.now (option_copied info.entry) }
{
    match info {
        Some(info) => info.id == *id,
        None => false,
    }
}

/// Whether an info is there, and has another size.
pub fn has_other_size(size: u64, info: Option<&ObjectInfo>) -> bool
    ensures { result ≡ defined.has_other_size size (option_copied info.entry) }
{
    match info {
        Some(info) => info.size != size,
        None => false,
    }
}
