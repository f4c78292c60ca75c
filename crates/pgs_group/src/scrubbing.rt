ghost use Rattle.std.specs.Prelude.{◌≡◌, ◌+◌, ◌<◌, ◌^◌, Some, None, OnOk, OnErr, IfOk, IfSome, option_map};
ghost use Rattle.pgs_gate.specs.Gate.{verdict_of};
ghost use Rattle.pgs_history.specs.Scrubs.{has_number, is_deep, further, ready, claims_of, serial_of, running_of};
ghost use Rattle.pgs_history.specs.Answers.{is_greatest, is_last, taken_by, version_of, gate_of, waits, giving_way, ask_of, newly};
ghost use Rattle.pgs_history.specs.Findings.{with_report};
ghost use Rattle.pgs_incons.specs.Kept.{AreOrdered};
ghost use Rattle.pgs_range.specs.declared.bound.Bound.TheVariants.{Min};
ghost use Rattle.pgs_group.specs.Scrubbing.{closed};

use pgs_chunk::{Ask, Kind};
use pgs_compare::Report;
use pgs_gate::{Gate, Verdict};
use pgs_history::{Chunk, Current, TakeAnswer};
use pgs_incons::Findings;
use pgs_name::Family;
use pgs_range::{Bound, FamilyRange};
use std::alloc::AllocError;

/// Where the scrubs of a group are.
#[derive(Drop)]
pub struct Scrubbing {
    /// How many scrubs began.
    pub begun: u64,
    /// How many chunks were opened.
    pub opened: u64,
    /// The scrub that reserves or runs.
    pub current: Option<Current>,
    /// The chunk that is open.
    pub open_chunk: Option<Chunk>,
    /// Where the next chunk begins.
    pub start: Bound,
    /// How often the scrub that began last gave way to a write.
    pub used: u64,
    /// The kind of the scrub that began last.
    pub kind: Option<Kind>,
    /// What is kept of all that was found.
    pub findings: Findings,
}

impl Scrubbing {
    /// A scrub more begins, and reserves.
    pub fn begin(&mut self, kind: Kind) -> u64
        requires { self.old.begun + 1 < 2 ^ 64 }
        ensures number { result ≡ self.old.begun + 1 }
        ensures kept { self.new ≡ record self.old { begun = self.old.begun + 1; current = Some (record { serial = self.old.begun + 1; claims = Some 0 }); start = Min; used = 0; kind = Some kind } }
    {
        let serial = self.begun + 1;
        self.begun = serial;
        self.current = Some(Current {
            serial,
            claims: Some(0),
        });
        self.start = Bound::Min;
        self.used = 0;
        self.kind = Some(kind);
        serial
    }

    /// The number of the scrub that reserves or runs.
    pub fn present(&self) -> Option<u64>
        ensures { result ≡ serial_of self.now.current }
    {
        match self.current {
            Some(scrub) => Some(scrub.serial),
            None => None,
        }
    }

    /// The number of the scrub that runs.
    pub fn running(&self) -> Option<u64>
        ensures { result ≡ running_of self.now.current }
    {
        let Some(scrub) = self.current else {
            return None;
        };
        match scrub.claims {
            Some(_) => None,
            None => Some(scrub.serial),
        }
    }

    /// Where the scrub that reserves claims next.
    pub fn claims(&self) -> Option<u64>
        ensures { result ≡ claims_of self.now.current }
    {
        match self.current {
            Some(scrub) => scrub.claims,
            None => None,
        }
    }

    /// The scrub claims one place further.
    pub fn further(&mut self)
        requires { IfSome (claims_of self.old.current) (λ place. place + 1 < 2 ^ 64) }
        ensures { self.new ≡ record self.old { current = further self.old.current } }
    {
        let Some(scrub) = self.current else {
            return;
        };
        let Some(place) = scrub.claims else {
            return;
        };
        self.current = Some(Current {
            serial: scrub.serial,
            claims: Some(place + 1),
        });
    }

    /// The scrub runs.
    pub fn ready(&mut self)
        ensures { self.new ≡ record self.old { current = ready self.old.current } }
    {
        let Some(scrub) = self.current else {
            return;
        };
        self.current = Some(Current {
            serial: scrub.serial,
            claims: None,
        });
    }

    /// No scrub reserves any more.
    pub fn give_up(&mut self)
        ensures { self.new ≡ record self.old { current = None } }
    {
        self.current = None;
    }

    /// No scrub reserves or runs any more, and no chunk is open.
    pub fn stop(&mut self)
        ensures { self.new ≡ record self.old { current = None; open_chunk = None } }
    {
        self.current = None;
        self.open_chunk = None;
    }

    /// A chunk more is open.
    pub fn open(&mut self, chunk: Chunk)
        ensures { self.new ≡ record self.old { opened = chunk.number; open_chunk = Some chunk } }
    {
        self.opened = chunk.number;
        self.open_chunk = Some(chunk);
    }

    /// Whether the chunk of a number is open.
    pub fn is_open(&self, chunk: u64) -> bool
        ensures { result ≡ has_number self.now.open_chunk chunk }
    {
        match &self.open_chunk {
            Some(open) => open.number == chunk,
            None => false,
        }
    }

    /// The number of the chunk that is open.
    pub fn open_number(&self) -> Option<u64>
        ensures { result ≡ option_map (λ chunk. chunk.number) self.now.open_chunk }
    {
        match &self.open_chunk {
            Some(open) => Some(open.number),
            None => None,
        }
    }

    /// The families of the chunk that is open.
    pub fn open_range(&self) -> Result<Option<FamilyRange>, AllocError>
        ensures { IfOk result (λ range. range ≡ option_map (λ chunk. chunk.range) self.now.open_chunk) }
    {
        let Some(open) = &self.open_chunk else {
            return Ok(None);
        };
        let range = open.range.clone()?;
        Ok(Some(range))
    }

    // What becomes of a write to a family.
    fn verdict(&self, family: &Family) -> Verdict
        ensures { result ≡ verdict_of (gate_of self.now.open_chunk) family.now }
    {
        match &self.open_chunk {
            Some(open) => Gate::of_chunk(&open.range, open.firm).check(family),
            None => Gate::without_chunk().check(family),
        }
    }

    /// Whether a write to a family waits.
    pub fn waits(&self, family: &Family) -> bool
        ensures { result ≡ waits (verdict_of (gate_of self.now.open_chunk) family.now) }
    {
        match self.verdict(family) {
            Verdict::Waits => true,
            Verdict::Pass => false,
            Verdict::Preempts => false,
        }
    }

    /// The chunk that gives way to a write to a family, if one does.
    pub fn giving_way(&self, family: &Family) -> Option<u64>
        ensures { result ≡ giving_way (verdict_of (gate_of self.now.open_chunk) family.now) self.now.open_chunk }
    {
        match self.verdict(family) {
            Verdict::Preempts => self.open_number(),
            Verdict::Pass => None,
            Verdict::Waits => None,
        }
    }

    /// The chunk that is open gives way to a write.
    pub fn give_way(&mut self)
        requires { self.old.used + 1 < 2 ^ 64 }
        ensures { self.new ≡ record self.old { open_chunk = None; used = self.old.used + 1 } }
    {
        self.open_chunk = None;
        self.used += 1;
    }

    /// What an acting member is asked for, where a chunk is open.
    pub fn ask(&self) -> Result<Option<Ask>, AllocError>
        ensures { IfOk result (λ ask. ask ≡ ask_of self.now.open_chunk (is_deep self.now.kind)) }
    {
        let deep = self.is_deep();
        let Some(open) = &self.open_chunk else {
            return Ok(None);
        };
        let range = open.range.clone()?;
        Ok(Some(Ask {
            serial: open.serial,
            chunk: open.number,
            range,
            needed: open.version,
            deep,
        }))
    }

    /// The chunk that is open, where it is newer than this one.
    pub fn newly(&self, before: u64) -> Option<u64>
        ensures { result ≡ newly self.now.open_chunk before }
    {
        let Some(open) = &self.open_chunk else {
            return None;
        };
        if before < open.number {
            return Some(open.number);
        }
        None
    }

    /// Whether the scrub that began last reads the data and the omaps of copies.
    pub fn is_deep(&self) -> bool
        ensures { result ≡ is_deep self.now.kind }
    {
        match self.kind {
            Some(Kind::Deep | Kind::Repair) => true,
            Some(Kind::Shallow) | None => false,
        }
    }

    /// The version of the chunk that is open: 0 where none is.
    pub fn version(&self) -> u64
        ensures { result ≡ version_of self.now.open_chunk }
    {
        match &self.open_chunk {
            Some(open) => open.version,
            None => 0,
        }
    }

    /// The answer to a map of a chunk.
    pub fn take_answer(&self, chunk: u64) -> TakeAnswer
        ensures { result ≡ taken_by self.now.open_chunk chunk }
    {
        if self.is_open(chunk) {
            return TakeAnswer::Taken;
        }
        match &self.open_chunk {
            Some(open) => TakeAnswer::Stale {
                chunk_now: Some(open.number),
            },
            None => TakeAnswer::Stale { chunk_now: None },
        }
    }

    /// What was found of the open chunk's families takes the place of what was kept of them.
    pub fn keep(&mut self, report: &Report) -> Result<(), AllocError>
        requires ordered { AreOrdered report.now.found report.now.snaps }
        ensures ok { OnOk result (self.new ≡ record self.old { findings = with_report self.old.open_chunk report.now self.old.findings }) }
        ensures err { OnErr result (self.new ≡ self.old) }
    {
        match &self.open_chunk {
            Some(chunk) => self.findings.keep(
                &chunk.range,
                report.found.as_slice(),
                report.snaps.as_slice(),
            ),
            None => Ok(()),
        }
    }

    /// The chunk that is open is so no more. Answers whether its scrub is complete.
    pub fn close(&mut self) -> bool
        ensures answer { result ≡ is_last self.old.open_chunk }
        ensures kept { self.new ≡ closed self.old }
    {
        let Some(chunk) = self.open_chunk.take() else {
            return false;
        };
        let to = end_of(chunk);
        let completes = is_greatest(&to);
        self.current = if completes { None } else { self.current };
        self.start = to;
        completes
    }
}

fn end_of(chunk: Chunk) -> Bound
    ensures { result ≡ chunk.range.to }
{
    let Chunk { range, .. } = chunk;
    let FamilyRange { to, .. } = range;
    to
}

fn is_greatest(bound: &Bound) -> bool
    ensures { result ≡ is_greatest bound.now }
{
    match bound {
        Bound::Max => true,
        _ => false,
    }
}
