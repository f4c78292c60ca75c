//! Spelling a snapset, clone by clone. Nothing is said of the vector where memory runs out.
ghost use Rattle.std.specs.Prelude.{◌≡◌, ◌++◌, length, OnOk};
ghost use Rattle.pgs_codec.specs.Fields.{u32, u64, counted, all_spelled};
ghost use Rattle.pgs_snapset.specs.Spelling.{clone, marks, snapset_spelling};

use crate::clone_facts::CloneFacts;
use crate::snapset::SnapSet;
use pgs_codec::{put_u8, put_u32, put_u64};
use std::alloc::AllocError;

/// Appends the spelling of a snapset.
#[tactic(auto, using(crate::proofs::Joined::three), unfolding(crate::specs::Spelling::snapset_spelling))]
pub fn put_snapset(into: &mut Vec<u8>, set: &SnapSet) -> Result<(), AllocError>
    ensures { OnOk result (into.new.items ≡ into.old.items ++ snapset_spelling set.now) }
{
    put_marks(into)?;
    put_u64(into, set.seq)?;
    put_clones(into, set.clones.as_slice())
}

#[tactic(auto, using(crate::proofs::Joined::two))]
fn put_marks(into: &mut Vec<u8>) -> Result<(), AllocError>
    ensures { OnOk result (into.new.items ≡ into.old.items ++ marks.spell (tt, tt)) }
{
    put_u8(into, 0x53)?;
    put_u8(into, 1)
}

#[tactic(auto, using(crate::proofs::Joined::two))]
fn put_clones(into: &mut Vec<u8>, clones: &[CloneFacts]) -> Result<(), AllocError>
    ensures { OnOk result (into.new.items ≡ into.old.items ++ (counted clone).spell clones.now) }
{
    put_count(into, clones.len())?;
    put_all_clones(into, clones)
}

// A count that four bytes can't tell is refused.
fn put_count(into: &mut Vec<u8>, count: usize) -> Result<(), AllocError>
    ensures { OnOk result (into.new.items ≡ into.old.items ++ u32.spell count) }
{
    if count > u32::MAX as usize {
        return Err(AllocError);
    }
    put_u32(into, count as u32)
}

#[tactic(auto, using(crate::proofs::Joined::one_more))]
fn put_all_clones(into: &mut Vec<u8>, clones: &[CloneFacts]) -> Result<(), AllocError>
    ensures { OnOk result (into.new.items ≡ into.old.items ++ all_spelled clone clones.now) }
{
    for clone in clones {
        put_clone(into, clone)?;
    }
    Ok(())
}

#[tactic(auto, using(crate::proofs::Joined::three))]
fn put_clone(into: &mut Vec<u8>, value: &CloneFacts) -> Result<(), AllocError>
    ensures { OnOk result (into.new.items ≡ into.old.items ++ clone.spell value.now) }
{
    put_u64(into, value.snap)?;
    put_u64(into, value.size)?;
    put_snaps(into, value.snaps.as_slice())
}

#[tactic(auto, using(crate::proofs::Joined::two))]
fn put_snaps(into: &mut Vec<u8>, snaps: &[u64]) -> Result<(), AllocError>
    ensures { OnOk result (into.new.items ≡ into.old.items ++ (counted u64).spell snaps.now) }
{
    put_count(into, snaps.len())?;
    put_all_snaps(into, snaps)
}

#[tactic(auto, using(crate::proofs::Joined::one_more))]
fn put_all_snaps(into: &mut Vec<u8>, snaps: &[u64]) -> Result<(), AllocError>
    ensures { OnOk result (into.new.items ≡ into.old.items ++ all_spelled u64 snaps.now) }
{
    for snap in snaps {
        put_u64(into, *snap)?;
    }
    Ok(())
}
