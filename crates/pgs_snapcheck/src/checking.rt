ghost use Rattle.std.specs.Prelude.{◌≡◌, ◌++◌, IfOk, OnOk};
ghost use Rattle.std.specs.List.{filter_map};
ghost use Rattle.std.specs.Option.{option_copied};
ghost use Rattle.pgs_snapcheck.specs.Check.{AreAscending, AreFoundAscending, checked, if_any, snap_finding, snap_findings};

use crate::cutting::first_run;
use crate::listing::{clones_there, extra_beside, missing_from};
use crate::looking::head_of;
use crate::noting::errors_of;
use crate::view::View;
use pgs_find::SnapFinding;
use sqlite_items::Items;
use std::alloc::{AllocError, Global};

/// What is wrong with the snapshots of the objects at some positions. Each position is held against those of its family, which
/// stand beside it.
#[tactic(auto, using(crate::proofs::Turns::turns))]
pub fn check(alloc: Global, views: &[View]) -> Result<Items<SnapFinding>, AllocError>
    requires { AreAscending views.now }
    ensures found { IfOk result (λ found. found ≡ snap_findings views.now) }

    // Findings stand by position too.
    ensures ascends { IfOk result (λ found. AreFoundAscending found) }
{
    let mut found = Items::new(alloc);
    let mut rest = views;
    while let Some((family, behind)) = first_run(rest) {
        check_family(alloc, family, &mut found)?;
        rest = behind;
    }
    Ok(found)
}

// Adds what is found of the positions of one family.
fn check_family(
    alloc: Global,
    family: &[View],
    found: &mut Items<SnapFinding>,
) -> Result<(), AllocError>
    ensures { OnOk result (found.new ≡ found.old ++ filter_map (snap_finding family.now) family.now) }
{
    let head = head_of(family);
    let there = clones_there(alloc, family)?;
    for view in family {
        if let Some(finding) = finding_of(alloc, head, there.as_slice(), view)? {
            found.push(finding)?;
        }
    }
    Ok(())
}

// What is found of a position beside the head of its family and the clones that are there.
fn finding_of(
    alloc: Global,
    head: Option<&View>,
    there: &[u64],
    view: &View,
) -> Result<Option<SnapFinding>, AllocError>
    ensures { IfOk result (λ found. found ≡ if_any (checked (option_copied head.entry) there.now view.now)) }
{
    let missing = missing_from(alloc, there, view)?;
    let extra = extra_beside(alloc, there, view)?;
    let errors = errors_of(head, view, missing.as_slice(), extra.as_slice());
    if errors.is_empty() {
        return Ok(None);
    }
    let id = view.id.clone()?;
    Ok(Some(SnapFinding {
        id,
        errors,
        missing,
        extra,
    }))
}
