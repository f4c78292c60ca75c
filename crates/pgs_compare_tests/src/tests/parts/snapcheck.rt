use pgs_find::{SnapError, SnapFinding};
use pgs_name::{HEAD, NameError, ObjectId};
use pgs_snapcheck::{View, check};
use sqlite_items::Items;
use std::alloc::{AllocError, Global};
use std::test::Fail;

// A position whose copies couldn't be looked at.
fn view(alloc: Global, snap: u64) -> Result<View, NameError> {
    let id = ObjectId::new(alloc, b"", b"", b"a", snap)?;
    Ok(View { id, facts: None })
}

#[tactic(auto, using(pgs_snapcheck::proofs::Order::one_ascends))]
fn found_alone(alloc: Global, view: View) -> Result<Items<SnapFinding>, AllocError> {
    let mut views = Vec::new(alloc);
    views.push(view)?;
    check(alloc, views.as_slice())
}

fn is_headless(found: &Items<SnapFinding>) -> bool {
    match found.as_slice().first() {
        Some(finding) => finding.errors.has(SnapError::Headless),
        None => false,
    }
}

#[test]
fn a_clone_without_a_head(rt: HostRuntime) -> Result<(), Fail> {
    let found = found_alone(rt.alloc(), view(rt.alloc(), 4)?)?;
    assert!(rt; is_headless(&found));
    assert_eq!(rt; found.len(), 1);
    Ok(())
}

#[test]
fn a_head_that_could_not_be_looked_at(rt: HostRuntime) -> Result<(), Fail> {
    let found = found_alone(rt.alloc(), view(rt.alloc(), HEAD)?)?;
    assert_eq!(rt; found.len(), 0);
    Ok(())
}
