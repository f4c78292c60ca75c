ghost use Rattle.pgs_map.specs.Entries.{AreAscending};

use pgs_compare::Report;
use pgs_list_json::list_obj;
use pgs_map::ScrubMap;
use std::alloc::{AllocError, Global};

// The acting OSDs, the primary first.
const ACTING: [u32; 3] = [0, 1, 2];

// What is found on the maps of three members.
fn report(
    alloc: Global,
    first: &ScrubMap,
    second: &ScrubMap,
    third: &ScrubMap,
) -> Result<Report, AllocError>
    requires first { AreAscending first.now.entries }
    requires second { AreAscending second.now.entries }
    requires third { AreAscending third.now.entries }
{
    let maps = [first, second, third];
    Report::of(alloc, &ACTING, 1, &maps)
}

/// How many findings there are on the maps of three members, which are compared so many times.
pub fn compared_again(
    alloc: Global,
    first: &ScrubMap,
    second: &ScrubMap,
    third: &ScrubMap,
    rounds: u32,
) -> Result<usize, AllocError>
    requires first { AreAscending first.now.entries }
    requires second { AreAscending second.now.entries }
    requires third { AreAscending third.now.entries }
{
    let mut found = 0;
    for _ in 0..rounds {
        let report = report(alloc, first, second, third)?;
        found = report.found.len();
    }
    Ok(found)
}

/// How many bytes the list of these findings has, which are found once and listed so many times.
pub fn listed_again(
    alloc: Global,
    first: &ScrubMap,
    second: &ScrubMap,
    third: &ScrubMap,
    rounds: u32,
) -> Result<usize, AllocError>
    requires first { AreAscending first.now.entries }
    requires second { AreAscending second.now.entries }
    requires third { AreAscending third.now.entries }
{
    let report = report(alloc, first, second, third)?;
    let mut bytes = 0;
    for _ in 0..rounds {
        let text = list_obj(alloc, 1, report.found.as_slice())?;
        bytes = text.len();
    }
    Ok(bytes)
}
