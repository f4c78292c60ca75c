//! Lists of OSDs.
ghost use Rattle.std.specs.Prelude.{◌≡◌, ◌+◌, ◌<◌, ◌^◌, find, slice_get};
ghost use Rattle.pgs_history.specs.Acting.{has_osd, osd_at};
ghost use Rattle.pgs_history.specs.Answers.{is_osd};
ghost use Rattle.pgs_group.specs.Counts.{lags_behind};

use crate::counts::Counts;

/// Whether an OSD is one of these.
pub fn has(osds: &[u32], osd: u32) -> bool
    ensures { result ≡ has_osd osds.now osd }
{
    osds.iter().any(|other| *other == osd)
}

/// The OSD at a place, or 0 past the end.
pub fn at(osds: &[u32], place: u64) -> u32
    ensures { result ≡ osd_at osds.now place }
{
    match osds.get(place as usize) {
        Some(osd) => *osd,
        None => 0,
    }
}

/// The OSD behind a place, if one is.
pub fn behind(osds: &[u32], place: u64) -> Option<u32>
    requires { place + 1 < 2 ^ 64 }
    ensures { result ≡ slice_get osds.now (place + 1) }
{
    match osds.get((place + 1) as usize) {
        Some(osd) => Some(*osd),
        None => None,
    }
}

/// Whether an OSD is there and is this one.
pub fn is(next: Option<u32>, osd: u32) -> bool
    ensures { result ≡ is_osd next osd }
{
    match next {
        Some(next) => next == osd,
        None => false,
    }
}

/// The first of these OSDs that isn't one of the acting ones, and whose count isn't a number.
pub fn first_lagging(osds: &[u32], acting: &[u32], counts: &Counts, number: u64) -> Option<u32>
    ensures { result ≡ find (lags_behind acting.now counts.now number) osds.now }
{
    osds.iter()
        .copied()
        .find(|osd| !has(acting, *osd) && !(counts.get(*osd) == number))
}
