//! The maps that were taken.
ghost use Rattle.std.specs.Prelude.{◌≡◌, ◌==◌, ◌&&◌, Some, None, reverse, find, is_none, if◌then◌else◌};
ghost use Rattle.std.specs.Option.{option_copied};
ghost use Rattle.pgs_history.specs.Scrubs.{taken, taken_after};

use pgs_history::{Event, TakeAnswer};
use pgs_map::ScrubMap;

/// The map of a chunk that an OSD gave last. It is looked for from the newest event on.
#[tactic(auto, using(crate::proofs::Maps::taken_here, crate::proofs::Maps::taken_below))]
pub fn taken(events: &[Event], chunk: u64, osd: u32) -> Option<&ScrubMap>
    ensures { option_copied result ≡ taken (reverse events.now) chunk osd }
{
    let mut left = events.len();
    while left > 0 {
        left -= 1;
        if let Some(map) = taken_in(&events[left], chunk, osd) {
            return Some(map);
        }
    }
    None
}

fn taken_in(event: &Event, chunk: u64, osd: u32) -> Option<&ScrubMap>
    ensures { option_copied result ≡ taken_after event.now chunk osd None }
{
    match event {
        Event::Take { map, answer, .. } => match answer {
            TakeAnswer::Taken => of_chunk(map, chunk, osd),
            TakeAnswer::Stale { .. } => None,
        },
        _ => None,
    }
}

fn of_chunk(map: &ScrubMap, chunk: u64, osd: u32) -> Option<&ScrubMap>
    ensures { option_copied result ≡ (if (map.now.chunk == chunk) && (map.now.osd == osd) then Some map.now else None) }
{
    if map.chunk == chunk && map.osd == osd {
        Some(map)
    } else {
        None
    }
}

/// The first of some OSDs whose map of a chunk is missing.
pub fn first_missing(events: &[Event], chunk: u64, osds: &[u32]) -> Option<u32>
    ensures { result ≡ find (λ osd. is_none (taken (reverse events.now) chunk osd)) osds.now }
{
    osds.iter()
        .copied()
        .find(|osd| taken(events, chunk, *osd).is_none())
}
