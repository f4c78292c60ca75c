ghost use Rattle.std.specs.Prelude.{◌≡◌, ℕ, ◌==◌, max, OnOk, OnErr, if◌then◌else◌};
ghost use Rattle.pgs_history.specs.Members.{raised};
ghost use Rattle.pgs_group.specs.Given.{pulled_of, asked_of};

use std::alloc::{AllocError, Global};
use std::collections::BTreeMap;

/// What an OSD was given.
#[derive(Clone, Copy, Drop)]
pub struct Upto {
    /// The number of the last item.
    pub pulled: u64,
    /// The number of the newest chunk that it was asked for.
    pub asked: u64,
}

/// What each OSD was given: nothing at first.
#[derive(Drop)]
pub struct Given {
    all: BTreeMap<u32, Upto>,
}

impl Given {
    /// None was given anything. It takes no memory.
    pub fn new(alloc: Global) -> Given
        ensures pulled { (osd : ℕ) → pulled_of result osd ≡ 0 }
        ensures asked { (osd : ℕ) → asked_of result osd ≡ 0 }
    {
        Given {
            all: BTreeMap::new(alloc),
        }
    }

    /// The number of the last item that an OSD was given.
    pub fn pulled(&self, osd: u32) -> u64
        ensures { result ≡ pulled_of self.now osd }
    {
        match self.all.get(&osd) {
            Some(upto) => upto.pulled,
            None => 0,
        }
    }

    /// The number of the newest chunk that an OSD was asked for.
    pub fn asked(&self, osd: u32) -> u64
        ensures { result ≡ asked_of self.now osd }
    {
        match self.all.get(&osd) {
            Some(upto) => upto.asked,
            None => 0,
        }
    }

    /// An OSD is given the items up to a number, and maybe a chunk.
    pub fn give(&mut self, osd: u32, to: u64, chunk: Option<u64>) -> Result<(), AllocError>
        ensures pulled { OnOk result ((q : ℕ) → pulled_of self.new q ≡ (if osd == q then max (pulled_of self.old q) to else pulled_of self.old q)) }
        ensures asked { OnOk result ((q : ℕ) → asked_of self.new q ≡ (if osd == q then raised (asked_of self.old q) chunk else asked_of self.old q)) }
        ensures err { OnErr result ((q : ℕ) → pulled_of self.new q ≡ pulled_of self.old q) }
        ensures err_asked { OnErr result ((q : ℕ) → asked_of self.new q ≡ asked_of self.old q) }
    {
        let upto = Upto {
            pulled: self.pulled(osd).max(to),
            asked: newest(self.asked(osd), chunk),
        };
        self.all.insert(osd, upto)?;
        Ok(())
    }
}

fn newest(before: u64, chunk: Option<u64>) -> u64
    ensures { result ≡ raised before chunk }
{
    match chunk {
        Some(chunk) => before.max(chunk),
        None => before,
    }
}
