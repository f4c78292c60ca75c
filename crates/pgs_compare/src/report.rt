ghost use Rattle.std.specs.Prelude.{◌≡◌, ◌++◌, [], ◌∷◌, IfOk, OnOk};
ghost use Rattle.std.specs.Option.{option_to_list};
ghost use Rattle.pgs_compare.specs.Finding.{finding as finding_of};
ghost use Rattle.pgs_compare.specs.Parts as parts;
ghost use Rattle.pgs_compare.specs.Report as defined;
ghost use Rattle.pgs_incons.specs.Kept.{AreOrdered};

use crate::finding::finding;
use crate::judging::{entries_at, facts_seen, judge};
use crate::positions::positions;
use pgs_find::SnapFinding;
use pgs_incons::Finding;
use pgs_map::{Entry, ScrubMap};
use pgs_name::ObjectId;
use pgs_select::choose;
use pgs_snapcheck::{View, check};
use sqlite_items::Items;
use std::alloc::{AllocError, Global};

/// What comparing the copies of a range finds, each by position.
#[derive(Drop)]
pub struct Report {
    /// What is wrong with the copies of objects.
    pub found: Items<Finding>,
    /// What is wrong with the snapshots of objects.
    pub snaps: Items<SnapFinding>,
}

impl Report {
    /// What is found at the positions of some maps, one map for each acting OSD, the primary's first: each position that any map has and
    /// of which a name holds, also where the primary's has none; and what is wrong with the snapshots.
    #[tactic(auto, using(crate::proofs::ReportLaws::report_ordered))]
    pub fn of(
        alloc: Global,
        acting: &[u32],
        version: u64,
        maps: &[&ScrubMap],
    ) -> Result<Report, AllocError>
        requires { defined.AreOrdered (parts.maps_seen maps.now) }
        ensures report { IfOk result (λ r. r ≡ defined.report acting.now version (parts.maps_seen maps.now)) }
        ensures ordered { IfOk result (λ r. AreOrdered r.found r.snaps) }
    {
        compare_all(alloc, acting, version, maps)
    }
}

fn compare_all(
    alloc: Global,
    acting: &[u32],
    version: u64,
    maps: &[&ScrubMap],
) -> Result<Report, AllocError>
    requires { defined.AreOrdered (parts.maps_seen maps.now) }
    ensures { IfOk result (λ r. r ≡ defined.report acting.now version (parts.maps_seen maps.now)) }
{
    let mut ids = positions(alloc, maps)?;
    let mut found = Items::new(alloc);
    let mut views = Vec::new(alloc);
    while let Some(id) = ids.pop_first() {
        let view = compare(alloc, acting, version, maps, id, &mut found)?;
        views.push(view)?;
    }
    let snaps = check(alloc, views.as_slice())?;
    Ok(Report { found, snaps })
}

// Adds what is found of one position, and gives its view.
fn compare(
    alloc: Global,
    acting: &[u32],
    version: u64,
    maps: &[&ScrubMap],
    id: ObjectId,
    found: &mut Items<Finding>,
) -> Result<View, AllocError>
    requires { defined.AreOrdered (parts.maps_seen maps.now) }
    ensures found { OnOk result (found.new ≡ found.old ++ option_to_list (finding_of acting.now version id (defined.entries_at (parts.maps_seen maps.now) id))) }
    ensures view { IfOk result (λ view. view ≡ defined.view_of id (defined.entries_at (parts.maps_seen maps.now) id)) }
{
    let entries = entries_at(alloc, maps, &id)?;
    compare_entries(alloc, acting, version, id, entries.as_slice(), found)
}

// The same by the entries of the position. Each of them is judged once for both.
fn compare_entries(
    alloc: Global,
    acting: &[u32],
    version: u64,
    id: ObjectId,
    entries: &[Option<&Entry>],
    found: &mut Items<Finding>,
) -> Result<View, AllocError>
    ensures found { OnOk result (found.new ≡ found.old ++ option_to_list (finding_of acting.now version id (parts.entries_seen entries.now))) }
    ensures view { IfOk result (λ view. view ≡ defined.view_of id (parts.entries_seen entries.now)) }
{
    let judged = judge(alloc, &id, entries)?;
    let copies = judged.as_slice();
    let place = choose(copies);
    let finding = finding(alloc, acting, version, &id, entries, copies, place)?;
    put(found, finding)?;
    let facts = facts_seen(judged, place);
    Ok(View { id, facts })
}

fn put(found: &mut Items<Finding>, finding: Option<Finding>) -> Result<(), AllocError>
    ensures { OnOk result (found.new ≡ found.old ++ option_to_list finding) }
{
    match finding {
        Some(finding) => found.push(finding),
        None => Ok(()),
    }
}
