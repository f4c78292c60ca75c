//! Moving what lists have, without copies.
ghost use Rattle.std.specs.Prelude.{◌≡◌, ◌++◌, ◌+◌, ◌-◌, ◌≤◌, length, take, drop, IfOk};

use crate::cut::Cut;
use sqlite_items::Items;
use std::alloc::{AllocError, Global};

/// What a list has, as a vector.
pub fn in_vec<T: Drop>(alloc: Global, list: Items<T>) -> Result<Vec<T>, AllocError>
    ensures { IfOk result (λ vec. vec.items ≡ list) }
{
    let mut list = list;
    let mut vec = Vec::new(alloc);
    while let Some(last) = list.pop() {
        vec.push(last)?;
    }
    vec.as_mut_slice().reverse();
    Ok(vec)
}

/// Puts what stands behind a cut list into the place of what stands within the cut. Where as many come as go, nothing else is moved.
pub fn move_into<T: Drop>(list: &mut Vec<T>, cut: Cut)
    requires ordered { (cut.from ≤ cut.to) × (cut.to ≤ cut.all) × (cut.all ≤ length list.old.items) }
    ensures { list.new.items ≡ take cut.from list.old.items ++ (drop cut.all list.old.items ++ drop cut.to (take cut.all list.old.items)) }
{
    if list.len() - cut.all == cut.to - cut.from {
        exchange(list, cut);
    } else {
        turn_in(list, cut);
    }
}

// As many come as go: each takes the place of one that goes.
fn exchange<T: Drop>(list: &mut Vec<T>, cut: Cut)
    requires ordered { (cut.from ≤ cut.to) × (cut.to ≤ cut.all) × (cut.all ≤ length list.old.items) }
    requires as_many { length list.old.items ≡ cut.all + (cut.to - cut.from) }
    ensures { list.new.items ≡ take cut.from list.old.items ++ (drop cut.all list.old.items ++ drop cut.to (take cut.all list.old.items)) }
{
    swap_behind(list, cut);
    list.truncate(cut.all);
}

// Swaps what stands within a cut with what stands behind the cut list.
fn swap_behind<T: Drop>(list: &mut Vec<T>, cut: Cut)
    requires ordered { (cut.from ≤ cut.to) × (cut.to ≤ cut.all) × (cut.all ≤ length list.old.items) }
    requires as_many { length list.old.items ≡ cut.all + (cut.to - cut.from) }
    ensures { list.new.items ≡ (take cut.from (take cut.all list.old.items) ++ (drop cut.all list.old.items ++ drop (cut.to - cut.from) (drop cut.from (take cut.all list.old.items)))) ++ take (cut.to - cut.from) (drop cut.from (take cut.all list.old.items)) }
{
    let (front, behind) = list.as_mut_slice().split_at_mut(cut.all);
    swap_within(front, cut.from, cut.to - cut.from, behind);
}

// Swaps so many from a place on with others.
fn swap_within<T>(list: &mut [T], from: usize, count: usize, others: &mut [T])
    requires within { from + count ≤ length list.old }
    requires as_many { length others.old ≡ count }
    ensures list { list.new ≡ take from list.old ++ (others.old ++ drop count (drop from list.old)) }
    ensures others { others.new ≡ take count (drop from list.old) }
{
    let (_, behind) = list.split_at_mut(from);
    let (gone, _) = behind.split_at_mut(count);
    gone.swap_with_slice(others);
}

// More or fewer come than go: what stands behind the cut is moved too.
fn turn_in<T: Drop>(list: &mut Vec<T>, cut: Cut)
    requires ordered { (cut.from ≤ cut.to) × (cut.to ≤ cut.all) × (cut.all ≤ length list.old.items) }
    ensures { list.new.items ≡ take cut.from list.old.items ++ (drop cut.all list.old.items ++ drop cut.to (take cut.all list.old.items)) }
{
    let gone = cut.to - cut.from;
    turn(list, cut.from, gone);
    let left = list.len() - gone;
    list.truncate(left);
    turn(list, cut.from, cut.all - cut.to);
}

// Puts so many behind a place to the end.
fn turn<T: Drop>(list: &mut Vec<T>, from: usize, count: usize)
    requires { from + count ≤ length list.old.items }
    ensures { list.new.items ≡ take from list.old.items ++ (drop count (drop from list.old.items) ++ take count (drop from list.old.items)) }
{
    let (_, behind) = list.as_mut_slice().split_at_mut(from);
    behind.rotate_left(count);
}
