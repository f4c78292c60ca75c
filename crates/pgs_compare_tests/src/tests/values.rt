//! What a finding tells beside names.
use crate::cases::alone;
use crate::comparing::report_of;
use crate::sketch::{DATA, OMAP, OTHER, Sketch, head};
use pgs_compare::Report;
use pgs_name::HEAD;
use std::alloc::Global;
use std::test::Fail;

// An OSD, whether it is the primary, and the size and the digests that are told of its copy.
type Values = (u32, bool, Option<u64>, Option<u32>, Option<u32>);

// Those of the acting OSD at a place, in the first finding.
fn values(report: &Report, place: usize) -> Option<Values> {
    let finding = report.found.get(0)?;
    let shard = finding.shards.get(place)?;
    Some((
        shard.osd,
        shard.primary,
        shard.size,
        shard.data_digest,
        shard.omap_digest,
    ))
}

fn report(alloc: Global, second: Option<Sketch>, third: Option<Sketch>) -> Result<Report, Fail> {
    report_of(alloc, [alone(Some(head())), alone(second), alone(third)])
}

#[test]
fn values_of_copies(rt: HostRuntime) -> Result<(), Fail> {
    let second = head().with_size(8).with_other_data();
    let found = report(rt.alloc(), Some(second), Some(head().marked_unstated()))?;
    assert!(rt; values(&found, 0) == Some((4, true, Some(7), Some(DATA), Some(OMAP))));
    assert!(rt; values(&found, 1) == Some((5, false, Some(8), Some(OTHER), Some(OMAP))));
    assert!(rt; values(&found, 2) == Some((6, false, None, None, None)));
    assert!(rt; values(&found, 3).is_none());
    let found = report(rt.alloc(), None, Some(head().unread()))?;
    assert!(rt; values(&found, 1) == Some((5, false, None, None, None)));
    assert!(rt; values(&found, 2) == Some((6, false, Some(7), None, None)));
    Ok(())
}

// The version of a finding's chunk, its position's snap, and the chosen copy's OSD, version and size.
type Choice = (u64, u64, u32, u32, u64, u64);

fn choice(report: &Report) -> Option<Choice> {
    let finding = report.found.get(0)?;
    let chosen = finding.chosen.as_ref()?;
    let version = chosen.info.version;
    Some((
        finding.version,
        finding.id.snap,
        chosen.osd,
        version.epoch,
        version.number,
        chosen.entry.size,
    ))
}

fn is_of_the_object(report: &Report) -> bool {
    match report.found.get(0) {
        Some(finding) => finding.id.family.name() == b"a".as_slice(),
        None => false,
    }
}

#[test]
fn values_of_a_finding(rt: HostRuntime) -> Result<(), Fail> {
    let found = report(rt.alloc(), None, Some(head()))?;
    assert_eq!(rt; found.found.len(), 1);
    assert_eq!(rt; found.snaps.len(), 0);
    assert!(rt; choice(&found) == Some((9, HEAD, 4, 4, 2, 7)));
    assert!(rt; is_of_the_object(&found));
    Ok(())
}
