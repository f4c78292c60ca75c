//! Reading a snapset, clone by clone. Memory is taken for what was read alone, whatever a count says.
ghost use Rattle.std.specs.Prelude.{◌≡◌};
ghost use Rattle.pgs_codec.specs.Fields.{u64, counted, read_all};
ghost use Rattle.pgs_codec.specs.Answers.{Reads};
ghost use Rattle.pgs_snapset.specs.Spelling.{clone, marks, snapset};

use crate::clone_facts::CloneFacts;
use crate::clones::Clones;
use crate::snapset::SnapSet;
use pgs_codec::{FieldError, Reader};
use pgs_request::Snaps;
use std::alloc::Global;

/// The snapset at the front of what is left.
pub fn take_snapset(alloc: Global, reader: &mut Reader) -> Result<SnapSet, FieldError>
    ensures { Reads (λ x. x) reader.new result (snapset.read reader.old) }
{
    take_marks(reader)?;
    let seq = reader.take_u64()?;
    let clones = take_clones(alloc, reader)?;
    Ok(SnapSet { seq, clones })
}

fn take_marks(reader: &mut Reader) -> Result<(), FieldError>
    ensures { Reads (λ x. (tt, tt)) reader.new result (marks.read reader.old) }
{
    reader.take_fixed(0x53)?;
    reader.take_fixed(1)
}

fn take_clones(alloc: Global, reader: &mut Reader) -> Result<Clones, FieldError>
    ensures { Reads (λ x. x) reader.new result ((counted clone).read reader.old) }
{
    let count = reader.take_u32()?;
    take_all_clones(alloc, count, reader)
}

fn take_all_clones(alloc: Global, count: u32, reader: &mut Reader) -> Result<Clones, FieldError>
    ensures { Reads (λ x. x) reader.new result (read_all clone count reader.old) }
{
    let mut clones = Clones::new(alloc);
    for _ in 0..count {
        let clone = take_clone(alloc, reader)?;
        clones.push(clone)?;
    }
    Ok(clones)
}

fn take_clone(alloc: Global, reader: &mut Reader) -> Result<CloneFacts, FieldError>
    ensures { Reads (λ x. x) reader.new result (clone.read reader.old) }
{
    let snap = reader.take_u64()?;
    let size = reader.take_u64()?;
    let snaps = take_snaps(alloc, reader)?;
    Ok(CloneFacts { snap, size, snaps })
}

fn take_snaps(alloc: Global, reader: &mut Reader) -> Result<Snaps, FieldError>
    ensures { Reads (λ x. x) reader.new result ((counted u64).read reader.old) }
{
    let count = reader.take_u32()?;
    take_all_snaps(alloc, count, reader)
}

fn take_all_snaps(alloc: Global, count: u32, reader: &mut Reader) -> Result<Snaps, FieldError>
    ensures { Reads (λ x. x) reader.new result (read_all u64 count reader.old) }
{
    let mut snaps = Snaps::new(alloc);
    for _ in 0..count {
        let snap = take_snap(reader)?;
        snaps.push(snap)?;
    }
    Ok(snaps)
}

fn take_snap(reader: &mut Reader) -> Result<u64, FieldError>
    ensures { Reads (λ x. x) reader.new result (u64.read reader.old) }
{
    let snap = reader.take_u64()?;
    Ok(snap)
}
