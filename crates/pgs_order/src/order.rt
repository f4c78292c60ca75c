ghost use Rattle.std.specs.Prelude.{◌≡◌, IfOk, OnOk};
ghost use Rattle.pgs_order.specs.Order as order;

use crate::declarations::{Declarations, Fail, Group, Osd};
use crate::limits::step_passes;
use crate::members::{
    are_declared, are_distinct, are_members, are_whole, has_group, has_osd, is_member, is_of_pool,
};
use crate::step_script::StepScript;
use pgs_lines::{Basic, Line, Step};
use sqlite_items::Items;
use std::alloc::{AllocError, Global};

/// Before the first line.
pub fn nothing_said(alloc: Global) -> StepScript
    ensures { result ≡ order.nothing_said }
{
    StepScript {
        declared: Declarations::new(alloc),
        steps: Items::new(alloc),
        over: false,
    }
}

/// Whether a text is passed over: an empty one, and one that begins with `#`.
pub fn passed(text: &[u8]) -> bool
    ensures { result ≡ order.passed text.now }
{
    match text.first() {
        Some(byte) => *byte == b'#',
        None => true,
    }
}

fn pool_follows(declared: &Declarations) -> bool
    ensures { result ≡ order.pool_follows declared.now }
{
    declared.bits.is_none()
}

fn osd_follows(declared: &Declarations, osd: u32) -> bool
    ensures { result ≡ order.osd_follows declared.now osd }
{
    declared.bits.is_some() && declared.groups.len() == 0 && !has_osd(declared.osds.as_slice(), osd)
}

fn group_follows(declared: &Declarations, group: u32, members: &[u32]) -> bool
    ensures { result ≡ order.group_follows declared.now group members.now }
{
    is_of_pool(declared.bits, group)
        && !has_group(declared.groups.as_slice(), group)
        && are_declared(declared.osds.as_slice(), members)
        && are_distinct(members)
}

fn fail_follows(script: &StepScript, group: u32, osd: u32) -> bool
    ensures { result ≡ order.fail_follows script.now group osd }
{
    are_whole(&script.declared)
        && script.steps.len() == 0
        && is_member(script.declared.groups.as_slice(), group, osd)
}

fn acting_follows(groups: &[Group], group: u32, acting: &[u32]) -> bool
    ensures { result ≡ order.acting_follows groups.now group acting.now }
{
    has_group(groups, group) && are_members(groups, group, acting) && are_distinct(acting)
}

fn basic_is_named(groups: &[Group], basic: &Basic) -> bool
    ensures { result ≡ order.basic_is_named groups.now basic.now }
{
    match basic {
        Basic::Write { .. } => true,
        Basic::Collect { group, .. } => has_group(groups, *group),
        Basic::Pull { group, osd } => is_member(groups, *group, *osd),
        Basic::Apply { group, osd } => is_member(groups, *group, *osd),
        Basic::Tell { group, osd } => is_member(groups, *group, *osd),
        Basic::Damage { group, osd, .. } => is_member(groups, *group, *osd),
        Basic::Begin { group, .. } => has_group(groups, *group),
        Basic::Open { group } => has_group(groups, *group),
        Basic::Scan { group, osd } => is_member(groups, *group, *osd),
        Basic::Take { group, osd } => is_member(groups, *group, *osd),
        Basic::Close { group } => has_group(groups, *group),
        Basic::Interval { group, acting } => acting_follows(groups, *group, acting.as_slice()),
        Basic::Claim { group } => has_group(groups, *group),
        Basic::Release { group, osd } => is_member(groups, *group, *osd),
        Basic::Job { group, .. } => has_group(groups, *group),
        Basic::Unjob { group } => has_group(groups, *group),
        Basic::Pick { .. } => true,
    }
}

fn step_is_named(groups: &[Group], step: &Step) -> bool
    ensures { result ≡ order.step_is_named groups.now step.now }
{
    match step {
        Step::Basic { basic } => basic_is_named(groups, basic),
        Step::Settle { group } => has_group(groups, *group),
        Step::Sweep { group, .. } => has_group(groups, *group),
        Step::ListObj { group } => has_group(groups, *group),
        Step::ListSnap { group } => has_group(groups, *group),
    }
}

// Whether all is declared, or nothing.
fn is_closed(declared: &Declarations) -> bool
    ensures { result ≡ order.is_closed declared.now }
{
    declared.bits.is_none() || are_whole(declared)
}

/// Whether a line may stand here, whatever limit it passes.
pub fn allows(script: &StepScript, line: &Line) -> bool
    ensures { result ≡ order.allows script.now line.now }
{
    match line {
        Line::Pool { .. } => pool_follows(&script.declared),
        Line::Osd { osd, .. } => osd_follows(&script.declared, *osd),
        Line::Group { group, members, .. } => {
            group_follows(&script.declared, *group, members.as_slice())
        }
        Line::Fail { group, osd, .. } => fail_follows(script, *group, *osd),
        Line::Step { step } => {
            are_whole(&script.declared) && step_is_named(script.declared.groups.as_slice(), step)
        }
        Line::End => is_closed(&script.declared),
    }
}

/// Whether a line passes a limit.
pub fn passes(script: &StepScript, line: &Line) -> bool
    ensures { result ≡ order.passes script.now line.now }
{
    match line {
        Line::Pool { bits } => *bits > 3,
        Line::Osd { osd, slots } => *osd > 63 || *slots > 8 || script.declared.osds.len() >= 16,
        Line::Group { members, .. } => members.len() > 8,
        Line::Fail { .. } => script.declared.fails.len() >= 1_000,
        Line::Step { step } => step_passes(step),
        Line::End => false,
    }
}

/// What was said with a line more.
pub fn after(script: StepScript, line: Line) -> Result<StepScript, AllocError>
    ensures { IfOk result (λ s. s ≡ order.after script line) }
{
    let mut next = script;
    match line {
        Line::Pool { bits } => {
            next.declared.bits = Some(bits);
            Ok(next)
        }
        Line::Osd { osd, slots } => {
            next.declared.osds.push(Osd { osd, slots })?;
            Ok(next)
        }
        Line::Group {
            group,
            epoch,
            members,
        } => {
            next.declared.groups.push(Group {
                group,
                epoch,
                members,
            })?;
            Ok(next)
        }
        Line::Fail {
            group,
            osd,
            call,
            number,
        } => {
            next.declared.fails.push(Fail {
                group,
                osd,
                call,
                number,
            })?;
            Ok(next)
        }
        Line::Step { step } => {
            next.steps.push(step)?;
            Ok(next)
        }
        Line::End => {
            next.over = true;
            Ok(next)
        }
    }
}
