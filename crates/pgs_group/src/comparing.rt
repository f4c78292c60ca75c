//! What the maps of a chunk tell, compared.
ghost use Rattle.std.specs.Prelude.{◌≡◌, reverse, IfOk, IfSome};
ghost use Rattle.std.specs.Option.{option_copied};
ghost use Rattle.pgs_map.specs.Entries.{AreAscending};
ghost use Rattle.pgs_compare.specs.Parts.{maps_seen};
ghost use Rattle.pgs_compare.specs.Report as defined;
ghost use Rattle.pgs_compare.specs.Report.{AreOrdered as AreMapsOrdered};
ghost use Rattle.pgs_history.specs.Answers.{maps_of};
ghost use Rattle.pgs_history.specs.Chunks.{AreOrdered as AreTakenOrdered};
ghost use Rattle.pgs_incons.specs.Kept.{AreOrdered};
ghost use Rattle.pgs_history.specs.Scrubs.{taken as taken_by};

use crate::taken::taken;
use pgs_compare::Report;
use pgs_history::Event;
use pgs_map::ScrubMap;
use std::alloc::{AllocError, Global};

/// What comparing the maps finds that some OSDs gave of a chunk, with a version.
pub fn compare(
    alloc: Global,
    version: u64,
    events: &[Event],
    chunk: u64,
    osds: &[u32],
) -> Result<Report, AllocError>
    requires { AreTakenOrdered (reverse events.now) }
    ensures report { IfOk result (λ r. r ≡ defined.report osds.now version (maps_of (reverse events.now) chunk osds.now)) }
    ensures ordered { IfOk result (λ r. AreOrdered r.found r.snaps) }
{
    let maps = taken_maps(alloc, events, chunk, osds)?;
    Report::of(alloc, osds, version, maps.as_slice())
}

// The maps that were taken of a chunk, whose entries are in order.
#[tactic(auto, using(crate::proofs::Maps::gathering))]
fn taken_maps<'a>(
    alloc: Global,
    events: &'a [Event],
    chunk: u64,
    osds: &[u32],
) -> Result<Vec<&'a ScrubMap>, AllocError>
    requires { AreTakenOrdered (reverse events.now) }
    ensures maps { IfOk result (λ maps. maps_seen maps.items ≡ maps_of (reverse events.now) chunk osds.now) }
    ensures ordered { IfOk result (λ maps. AreMapsOrdered (maps_seen maps.items)) }
{
    let mut maps = Vec::new(alloc);
    for osd in osds {
        if let Some(map) = taken_map(events, chunk, *osd) {
            maps.push(map)?;
        }
    }
    Ok(maps)
}

// A map that was taken, whose entries are in order.
#[tactic(auto, using(crate::proofs::Maps::taken_ascends))]
fn taken_map(events: &[Event], chunk: u64, osd: u32) -> Option<&ScrubMap>
    requires { AreTakenOrdered (reverse events.now) }
    ensures taken { option_copied result ≡ taken_by (reverse events.now) chunk osd }
    ensures ascends { IfSome result (λ m. AreAscending m.now.entries) }
{
    taken(events, chunk, osd)
}
