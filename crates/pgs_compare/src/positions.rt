//! The positions that have an entry in some map.
ghost use Rattle.std.specs.Prelude.{◌≡◌, IfOk, OnOk};
ghost use Rattle.pgs_compare.specs.Parts as parts;
ghost use Rattle.pgs_compare.specs.Report as defined;

use pgs_map::{Entry, ScrubMap};
use pgs_name::ObjectId;
use std::alloc::{AllocError, Global};
use std::collections::BTreeSet;

/// The positions that have an entry in some map, each once and in order.
#[tactic(auto, using(crate::proofs::Turns::map_next, crate::proofs::Turns::map_end))]
pub fn positions(alloc: Global, maps: &[&ScrubMap]) -> Result<BTreeSet<ObjectId>, AllocError>
    ensures { IfOk result (λ ids. ids.keys ≡ defined.positions_of (parts.maps_seen maps.now)) }
{
    let mut ids = BTreeSet::new(alloc);
    for map in maps {
        put_entries(&mut ids, map.entries.as_slice())?;
    }
    Ok(ids)
}

fn put_entries(ids: &mut BTreeSet<ObjectId>, entries: &[Entry]) -> Result<(), AllocError>
    ensures { OnOk result (ids.new.keys ≡ defined.with_entries ids.old.keys entries.now) }
{
    for entry in entries {
        let id = entry.id.clone()?;
        ids.insert(id)?;
    }
    Ok(())
}
