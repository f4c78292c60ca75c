//! Makes the scrub maps of three members and does something with them again and again; measured by bench/comparing and bench/lists.
//!
//!     measure_maps compare|encode|decode|list ENTRIES ROUNDS
//!
//! Of every ten positions two have a copy that differs.
#![tactic(auto)]

mod ascending;
mod comparing;
mod encoding;
mod entries;
mod maps;
mod work;

use anyhow::{Result, bail};
use comparing::{compared_again, listed_again};
use encoding::{decoded_again, encoded_again};
use maps::{member_map, positions};
use pgs_name::ObjectId;
use std::alloc::Global;
use std::env;
use work::{Work, unit_of, work_of};

// What the words of the command line ask for.
#[derive(Clone, Copy, Drop)]
struct Asked {
    work: Work,
    entries: u32,
    rounds: u32,
}

fn some(word: Option<String>) -> Result<String> {
    let Some(word) = word else {
        bail!("wanted: measure_maps compare|encode|decode|list ENTRIES ROUNDS");
    };
    Ok(word)
}

fn number(word: Option<String>) -> Result<u32> {
    let word = some(word)?;
    let number = word.as_str().parse::<u32>()?;
    Ok(number)
}

fn asked_work(word: Option<String>) -> Result<Work> {
    let word = some(word)?;
    work_of(word.as_str())
}

fn read_words(rt: &HostRuntime) -> Result<Asked> {
    let mut words = env::args(rt)?.skip(1);
    let work = asked_work(words.next())?;
    let entries = number(words.next())?;
    let rounds = number(words.next())?;
    Ok(Asked {
        work,
        entries,
        rounds,
    })
}

// Compares the maps of three members, or lists what that finds, and tells how much it is.
fn with_three(alloc: Global, ids: &[ObjectId], rounds: u32, lists: bool) -> Result<usize> {
    let first = member_map(alloc, 0, ids)?;
    let second = member_map(alloc, 1, ids)?;
    let third = member_map(alloc, 2, ids)?;
    let told = if lists {
        listed_again(alloc, &first, &second, &third, rounds)?
    } else {
        compared_again(alloc, &first, &second, &third, rounds)?
    };
    Ok(told)
}

// Does the work so many times, and tells how much the last time gave.
fn done(alloc: Global, ids: &[ObjectId], asked: Asked) -> Result<usize> {
    match asked.work {
        Work::Compare => with_three(alloc, ids, asked.rounds, false),
        Work::List => with_three(alloc, ids, asked.rounds, true),
        Work::Encode => {
            let map = member_map(alloc, 0, ids)?;
            let bytes = encoded_again(alloc, &map, asked.rounds)?;
            Ok(bytes)
        }
        Work::Decode => {
            let map = member_map(alloc, 0, ids)?;
            decoded_again(alloc, &map, asked.rounds)
        }
    }
}

fn main(rt: HostRuntime) -> Result<()> {
    let asked = read_words(&rt)?;
    let ids = positions(rt.alloc(), asked.entries)?;
    let told = done(rt.alloc(), ids.as_slice(), asked)?;
    println!(rt;
        "{} entries, {} rounds: {told} {}",
        asked.entries,
        asked.rounds,
        unit_of(asked.work)
    )?;
    Ok(())
}
