//! Spelling bounds and ranges. Nothing is said of the vector where memory runs out.
ghost use Rattle.std.specs.Prelude.{◌≡◌, ◌++◌, OnOk};
ghost use Rattle.pgs_map_encoding.specs.Bounds.{family, bound, range};

use pgs_codec::{put_bytes, put_u8};
use pgs_name::Family;
use pgs_range::{Bound, FamilyRange};
use std::alloc::AllocError;

/// Appends the spelling of a range.
#[tactic(auto, using(crate::proofs::Joined::two))]
pub fn put_range(into: &mut Vec<u8>, value: &FamilyRange) -> Result<(), AllocError>
    ensures { OnOk result (into.new.items ≡ into.old.items ++ range.spell value.now) }
{
    put_bound(into, &value.from)?;
    put_bound(into, &value.to)
}

#[tactic(auto, using(crate::proofs::Joined::two, crate::proofs::Joined::one))]
fn put_bound(into: &mut Vec<u8>, value: &Bound) -> Result<(), AllocError>
    ensures { OnOk result (into.new.items ≡ into.old.items ++ bound.spell value.now) }
{
    match value {
        Bound::Min => put_u8(into, 0),
        Bound::At { family } => {
            put_u8(into, 1)?;
            put_family(into, family)
        }
        Bound::Max => put_u8(into, 2),
    }
}

#[tactic(auto, using(crate::proofs::Joined::three))]
fn put_family(into: &mut Vec<u8>, value: &Family) -> Result<(), AllocError>
    ensures { OnOk result (into.new.items ≡ into.old.items ++ family.spell value.now) }
{
    put_bytes(into, value.space())?;
    put_bytes(into, value.kept_key())?;
    put_bytes(into, value.name())
}
