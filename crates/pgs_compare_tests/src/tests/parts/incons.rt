ghost use Rattle.std.specs.Prelude.{◌≡◌, [], ◌∷◌, IfOk};

use pgs_bytes::Bytes;
use pgs_find::ObjectErrors;
use pgs_incons::{Finding, Findings};
use pgs_name::{Family, HEAD, NameError, ObjectId};
use pgs_range::{Bound, FamilyRange};
use sqlite_items::Items;
use std::alloc::{AllocError, Global};
use std::test::Fail;

fn finding(alloc: Global, name: &[u8]) -> Result<Finding, NameError> {
    let id = ObjectId::new(alloc, b"", b"", name, HEAD)?;
    Ok(Finding {
        id,
        version: 1,
        errors: ObjectErrors::none(),
        shards: Items::new(alloc),
        chosen: None,
    })
}

fn bound(alloc: Global, name: &[u8]) -> Result<Bound, AllocError> {
    let name = Bytes::from_slice(alloc, name)?;
    let family = Family::new(Bytes::new(alloc), Bytes::new(alloc), name)?;
    Ok(Bound::At { family })
}

fn alone(alloc: Global, finding: Finding) -> Result<Items<Finding>, AllocError>
    ensures { IfOk result (λ list. list ≡ finding ∷ []) }
{
    let mut list = Items::new(alloc);
    list.push(finding)?;
    Ok(list)
}

// Puts a finding in the place of all of a range, where it lies in it.
#[tactic(auto, using(crate::proofs::Alone::alone))]
fn put(
    alloc: Global,
    findings: &mut Findings,
    range: &FamilyRange,
    finding: Finding,
) -> Result<(), AllocError> {
    if !range.in_range(&finding.id.family) {
        return Ok(());
    }
    let found = alone(alloc, finding)?;
    findings.replace(range, found, Items::new(alloc))
}

fn put_named(
    alloc: Global,
    findings: &mut Findings,
    from: Bound,
    to: Bound,
    name: &[u8],
) -> Result<(), NameError> {
    let range = FamilyRange { from, to };
    let finding = finding(alloc, name)?;
    put(alloc, findings, &range, finding)?;
    Ok(())
}

// The order of the names is a, b, d, c.
fn put_first(alloc: Global, findings: &mut Findings) -> Result<(), NameError> {
    let end = bound(alloc, b"b")?;
    put_named(alloc, findings, Bound::Min, end, b"a")
}

fn put_middle(alloc: Global, findings: &mut Findings, name: &[u8]) -> Result<(), NameError> {
    let start = bound(alloc, b"b")?;
    let end = bound(alloc, b"c")?;
    put_named(alloc, findings, start, end, name)
}

fn put_last(alloc: Global, findings: &mut Findings) -> Result<(), NameError> {
    let start = bound(alloc, b"c")?;
    put_named(alloc, findings, start, Bound::Max, b"c")
}

fn put_all(alloc: Global, findings: &mut Findings) -> Result<(), NameError> {
    put_first(alloc, findings)?;
    put_last(alloc, findings)?;
    put_middle(alloc, findings, b"b")?;
    put_middle(alloc, findings, b"d")
}

fn is_named(findings: &Findings, at: usize, name: &[u8]) -> bool {
    match findings.list().get(at) {
        Some(finding) => finding.id.family.name() == name,
        None => false,
    }
}

fn are_three(findings: &Findings) -> bool {
    findings.list().len() == 3
        && is_named(findings, 0, b"a")
        && is_named(findings, 1, b"d")
        && is_named(findings, 2, b"c")
}

#[test]
fn the_middle_replaced_twice(rt: HostRuntime) -> Result<(), Fail> {
    let mut findings = Findings::new(rt.alloc());
    put_all(rt.alloc(), &mut findings)?;
    assert!(rt; are_three(&findings));
    assert!(rt; findings.list_snaps().is_empty());
    Ok(())
}

#[test]
fn a_finding_copied(rt: HostRuntime) -> Result<(), Fail> {
    let copy = finding(rt.alloc(), b"a")?.copied(rt.alloc())?;
    assert_eq!(rt; copy.version, 1);
    Ok(())
}
