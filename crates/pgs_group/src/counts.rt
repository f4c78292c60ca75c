ghost use Rattle.std.specs.Prelude.{◌≡◌, ℕ, ◌==◌, max, OnOk, OnErr, if◌then◌else◌};
ghost use Rattle.pgs_group.specs.Counts.{count_of};

use std::alloc::{AllocError, Global};
use std::collections::BTreeMap;

/// A count for each OSD, which starts at 0 and never falls.
#[derive(Drop)]
pub struct Counts {
    counts: BTreeMap<u32, u64>,
}

impl Counts {
    /// All counts are 0. It takes no memory.
    pub fn new(alloc: Global) -> Counts
        ensures { (osd : ℕ) → count_of result osd ≡ 0 }
    {
        Counts {
            counts: BTreeMap::new(alloc),
        }
    }

    /// The count of an OSD.
    pub fn get(&self, osd: u32) -> u64
        ensures { result ≡ count_of self.now osd }
    {
        match self.counts.get(&osd) {
            Some(count) => *count,
            None => 0,
        }
    }

    /// Raises the count of an OSD, unless it is as high already.
    pub fn raise(&mut self, osd: u32, to: u64) -> Result<(), AllocError>
        ensures ok { OnOk result ((q : ℕ) → count_of self.new q ≡ (if osd == q then max (count_of self.old q) to else count_of self.old q)) }
        ensures err { OnErr result ((q : ℕ) → count_of self.new q ≡ count_of self.old q) }
    {
        if to <= self.get(osd) {
            return Ok(());
        }
        self.counts.insert(osd, to)?;
        Ok(())
    }
}
