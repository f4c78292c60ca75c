//! The report over the copies of three OSDs.
ghost use Rattle.std.specs.Prelude.{IfOk};
ghost use Rattle.pgs_map.specs.Entries.{AreAscending};

use crate::making::{Copies, map_of};
use pgs_compare::Report;
use pgs_map::ScrubMap;
use std::alloc::{AllocError, Global};
use std::test::Fail;

// The acting OSDs are 4, 5 and 6, of which 4 is the primary. The chunk's version is 9.
fn compare(
    alloc: Global,
    first: &ScrubMap,
    second: &ScrubMap,
    third: &ScrubMap,
) -> Result<Report, AllocError>
    requires first { AreAscending first.now.entries }
    requires second { AreAscending second.now.entries }
    requires third { AreAscending third.now.entries }
{
    let maps = [first, second, third];
    Report::of(alloc, &[4, 5, 6], 9, &maps)
}

/// The report over what the OSDs 4, 5 and 6 have.
pub fn report_of(alloc: Global, osds: [Copies; 3]) -> Result<Report, Fail> {
    let [first, second, third] = osds;
    let first = map_of(alloc, 4, first)?;
    let second = map_of(alloc, 5, second)?;
    let third = map_of(alloc, 6, third)?;
    Ok(compare(alloc, &first, &second, &third)?)
}
