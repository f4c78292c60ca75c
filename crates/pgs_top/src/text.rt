ghost use Rattle.std.specs.Prelude.{◌≡◌, ◌++◌, reverse, IfOk, OnOk};
ghost use Rattle.pgs_top.specs.Output as output;

use crate::histories::Histories;
use pgs_chunk::Settings;
use pgs_done::{Done, print};
use std::alloc::{AllocError, Global};

// Whether what was done is printed.
fn is_shown(lists: bool, done: &Done) -> bool
    ensures { result ≡ output.is_shown lists done.now }
{
    if lists { done.is_listed() } else { true }
}

// Appends the line of what was done, where it is printed.
fn push_line(alloc: Global, lists: bool, done: &Done, text: &mut Vec<u8>) -> Result<(), AllocError>
    ensures { OnOk result (text.new.items ≡ text.old.items ++ output.shown_line lists done.now) }
{
    if is_shown(lists, done) {
        print(alloc, done, text)?;
    }
    Ok(())
}

// The lines of what was done.
#[tactic(auto, using(crate::proofs::Lines::lines_next, crate::proofs::Lines::lines_end))]
fn lines(alloc: Global, lists: bool, done: &[Done]) -> Result<Vec<u8>, AllocError>
    ensures { IfOk result (λ text. text.items ≡ output.lines lists done.now) }
{
    let mut text = Vec::new(alloc);
    for one in done {
        push_line(alloc, lists, one, &mut text)?;
    }
    Ok(text)
}

// The same of a world, if there is one.
#[tactic(auto, using(crate::proofs::Lines::turned))]
fn world_lines(alloc: Global, lists: bool, kept: &Histories) -> Result<Vec<u8>, AllocError>
    ensures { IfOk result (λ text. text.items ≡ output.world_lines lists kept.now.world) }
{
    match &kept.world {
        Some(world) => lines(alloc, lists, world.done()),
        None => Ok(Vec::new(alloc)),
    }
}

/// The text of what happened: a line for each thing that was done, or for the lists alone, as the settings say.
pub fn text(alloc: Global, settings: Settings, kept: &Histories) -> Result<Vec<u8>, AllocError>
    ensures { IfOk result (λ text. text.items ≡ output.text_of settings kept.now) }
{
    let mut text = world_lines(alloc, settings.lists, kept)?;
    text.extend_from_slice(b"end\n")?;
    Ok(text)
}
