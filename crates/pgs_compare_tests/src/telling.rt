//! What a report says, as one text with a line for each finding: the names that hold, of sets in the order of their tables.
use pgs_compare::Report;
use pgs_find::{
    ObjectErrors, ShardErrors, SnapErrors, SnapFinding, object_rows, shard_rows, snap_rows,
};
use pgs_incons::{Finding, ShardFinding};
use pgs_name::HEAD;
use std::alloc::{AllocError, Global};

fn tell_position(text: &mut String, snap: u64) -> Result<(), AllocError> {
    if snap == HEAD {
        return text.push_str("head");
    }
    write!(text, "clone {snap}")
}

fn tell_object(text: &mut String, errors: ObjectErrors) -> Result<(), AllocError> {
    let rows = object_rows();
    for row in &rows {
        if errors.has(row.name) {
            tell_word(text, row.word)?;
        }
    }
    Ok(())
}

fn tell_shard(text: &mut String, errors: ShardErrors) -> Result<(), AllocError> {
    let rows = shard_rows();
    for row in &rows {
        if errors.has(row.name) {
            tell_word(text, row.word)?;
        }
    }
    Ok(())
}

fn tell_snap(text: &mut String, errors: SnapErrors) -> Result<(), AllocError> {
    let rows = snap_rows();
    for row in &rows {
        if errors.has(row.name) {
            tell_word(text, row.word)?;
        }
    }
    Ok(())
}

fn tell_word(text: &mut String, word: &str) -> Result<(), AllocError> {
    text.push_str(" ")?;
    text.push_str(word)
}

fn tell_snaps(text: &mut String, snaps: &[u64]) -> Result<(), AllocError> {
    for snap in snaps {
        write!(text, " {snap}")?;
    }
    Ok(())
}

// As `head, 4 chosen: size_mismatch; 4: missing; 5:; 6:`.
fn tell_finding(text: &mut String, finding: &Finding) -> Result<(), AllocError> {
    tell_position(text, finding.id.snap)?;
    tell_choice(text, finding)?;
    tell_object(text, finding.errors)?;
    for shard in finding.shards.as_slice() {
        tell_shard_finding(text, shard)?;
    }
    text.push_str("\n")
}

fn tell_choice(text: &mut String, finding: &Finding) -> Result<(), AllocError> {
    match &finding.chosen {
        Some(chosen) => {
            let osd = chosen.osd;
            write!(text, ", {osd} chosen:")
        }
        None => text.push_str(", none chosen:"),
    }
}

fn tell_shard_finding(text: &mut String, shard: &ShardFinding) -> Result<(), AllocError> {
    let osd = shard.osd;
    write!(text, "; {osd}:")?;
    tell_shard(text, shard.errors)
}

// As `snaps of head: clone_missing; missing: 2 6; extra:`.
fn tell_snap_finding(text: &mut String, finding: &SnapFinding) -> Result<(), AllocError> {
    text.push_str("snaps of ")?;
    tell_position(text, finding.id.snap)?;
    text.push_str(":")?;
    tell_snap(text, finding.errors)?;
    text.push_str("; missing:")?;
    tell_snaps(text, finding.missing.as_slice())?;
    text.push_str("; extra:")?;
    tell_snaps(text, finding.extra.as_slice())?;
    text.push_str("\n")
}

/// All that a report says: nothing for one without findings.
pub fn told(alloc: Global, report: &Report) -> Result<String, AllocError> {
    let mut text = String::new(alloc);
    for finding in report.found.as_slice() {
        tell_finding(&mut text, finding)?;
    }
    for finding in report.snaps.as_slice() {
        tell_snap_finding(&mut text, finding)?;
    }
    Ok(text)
}
