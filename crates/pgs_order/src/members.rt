//! What is declared.
ghost use Rattle.std.specs.Prelude.{◌≡◌, ◌==◌, ◌^◌, IfOk};
ghost use Rattle.std.specs.Option.{option_copied};
ghost use Rattle.pgs_order.specs.Order as order;

use crate::declarations::{Declarations, Fail, Group, Osd};
use sqlite_items::Items;
use std::alloc::{AllocError, Global};

fn has(numbers: &[u32], number: u32) -> bool
    ensures { result ≡ order.has numbers.now number }
{
    numbers.iter().any(|n| *n == number)
}

/// Whether an OSD is declared.
pub fn has_osd(osds: &[Osd], number: u32) -> bool
    ensures { result ≡ order.has_osd osds.now number }
{
    osds.iter().any(|osd| osd.osd == number)
}

/// Whether a group is declared.
pub fn has_group(groups: &[Group], number: u32) -> bool
    ensures { result ≡ order.has_group groups.now number }
{
    groups.iter().any(|group| group.group == number)
}

fn is_in(group: &Group, number: u32, osd: u32) -> bool
    ensures { result ≡ order.is_in number osd group.now }
{
    group.group == number && has(group.members.as_slice(), osd)
}

/// Whether an OSD is a member of a declared group.
pub fn is_member(groups: &[Group], number: u32, osd: u32) -> bool
    ensures { result ≡ order.is_member groups.now number osd }
{
    groups.iter().any(|group| is_in(group, number, osd))
}

/// Whether all OSDs are members of a declared group.
pub fn are_members(groups: &[Group], number: u32, osds: &[u32]) -> bool
    ensures { result ≡ order.are_members groups.now number osds.now }
{
    osds.iter().all(|osd| is_member(groups, number, *osd))
}

/// The group of this number.
pub fn find_group(groups: &[Group], number: u32) -> Option<&Group>
    ensures { option_copied result ≡ order.group_of groups.now number }
{
    for group in groups {
        if group.group == number {
            return Some(group);
        }
    }
    None
}

fn is_of(fail: &Fail, group: u32, osd: u32) -> bool
    ensures { result ≡ order.is_of group osd fail.now }
{
    fail.group == group && fail.osd == osd
}

/// The calls of the device by which an OSD stores a group.
pub fn choose_fails(
    alloc: Global,
    fails: &[Fail],
    group: u32,
    osd: u32,
) -> Result<Items<Fail>, AllocError>
    ensures { IfOk result (λ found. found ≡ order.fails_of group osd fails.now) }
{
    let mut found = Items::new(alloc);
    for fail in fails {
        if is_of(fail, group, osd) {
            found.push(*fail)?;
        }
    }
    Ok(found)
}

/// Whether all OSDs are declared.
pub fn are_declared(osds: &[Osd], members: &[u32]) -> bool
    ensures { result ≡ order.are_declared osds.now members.now }
{
    members.iter().all(|member| has_osd(osds, *member))
}

/// Whether all are different. It costs as many passes as numbers stand before the first that comes again.
pub fn are_distinct(numbers: &[u32]) -> bool
    ensures { result ≡ order.are_distinct numbers.now }
{
    let mut rest = numbers;
    while let Some((first, more)) = rest.split_first() {
        if has(more, *first) {
            return false;
        }
        rest = more;
    }
    true
}

// Whether there are 2^bits.
#[tactic(auto, using(crate::proofs::Powers::never_so_many))]
fn is_power(bits: u32, count: usize) -> bool
    ensures { result ≡ (count == 2 ^ bits) }
{
    bits < 64 && count as u64 == 1 << bits
}

/// Whether the pool and all its groups are declared.
pub fn are_whole(declared: &Declarations) -> bool
    ensures { result ≡ order.are_whole declared.now }
{
    match declared.bits {
        Some(bits) => is_power(bits, declared.groups.len()),
        None => false,
    }
}

// Whether a number is below 2^bits.
#[tactic(auto, using(crate::proofs::Powers::all_below))]
fn is_below(bits: u32, number: u32) -> bool
    ensures { result ≡ order.is_below bits number }
{
    bits >= 32 || number < 1 << bits
}

/// Whether a number is that of a group of the pool.
pub fn is_of_pool(bits: Option<u32>, number: u32) -> bool
    ensures { result ≡ order.is_of_pool bits number }
{
    match bits {
        Some(bits) => is_below(bits, number),
        None => false,
    }
}
