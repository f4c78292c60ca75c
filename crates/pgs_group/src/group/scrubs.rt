//! The steps of a group's scrubs.
ghost use Rattle.std.specs.Prelude.{◌≡◌, ◌<◌, true, false, is_some, IfOk, OnOk, OnErr, Some, None};
ghost use Rattle.pgs_chunk.specs.Positions.{Ascends};
ghost use Rattle.pgs_map.specs.Entries.{AreInRange};
ghost use Rattle.pgs_history.specs.Scrubs.{IsBegun, last_kind, is_deep, fate, limit_now, is_firm};
ghost use Rattle.pgs_history.specs.Answers.{begin_answer, unopened, open_answer, take_answer, close_answer, unclosed, told_of, found, next_chunk, primary};
ghost use Rattle.pgs_history.specs.After.{after_begin, after_open, after_take, after_close};
ghost use Rattle.pgs_history.specs.Legal.{IsLegal, IsOfChunk};
ghost use Rattle.pgs_history.specs.Parked.{is_admitting};
ghost use Rattle.pgs_incons.specs.Kept.{AreOrdered};
ghost use Rattle.pgs_group.specs.Steps.{IsNextChunk, close_told};

use super::Group;
use crate::close_told::{CloseTold, told_of};
use crate::comparing::compare;
use crate::limits_now::limit_of;
use crate::next_chunk::NextChunk;
use crate::noting::note_completed;
use crate::osds;
use crate::taken::first_missing;
use pgs_chunk::{Kind, select};
use pgs_compare::Report;
use pgs_history::{BeginAnswer, Chunk, CloseAnswer, Event, Fate, OpenAnswer, TakeAnswer};
use pgs_map::ScrubMap;
use pgs_name::ObjectId;
use pgs_range::Bound;
use sqlite_items::Items;
use std::alloc::AllocError;

impl Group {
    /// Begins a scrub, unless one reserves or runs.
    #[tactic(auto, using(crate::proofs::Scrubs::begun_most))]
    pub fn begin(&mut self, kind: Kind) -> Result<BeginAnswer, AllocError>
        requires idle { is_admitting self.old.past ≡ false }
        ensures answer { IfOk result (λ a. a ≡ begin_answer self.old.made self.old.past) }
        ensures kept { OnOk result (self.new ≡ record self.old { past = after_begin self.old.made self.old.past kind }) }
        ensures err { OnErr result (self.new ≡ self.old) }
        ensures legal { IsLegal self.old.made self.old.past → IsLegal self.new.made self.new.past }
    {
        self.events.reserve(1)?;
        if let Some(serial) = self.scrubs.present() {
            let answer = BeginAnswer::Busy { serial };
            self.events.push_reserved(Event::Begin { kind, answer });
            return Ok(answer);
        }
        let first = osds::at(self.acting(), 0);
        let serial = self.scrubs.begin(kind);
        let answer = BeginAnswer::Began { serial, first };
        self.events.push_reserved(Event::Begin { kind, answer });
        Ok(answer)
    }

    // How many positions the next chunk may have.
    fn limit_now(&self) -> u32
        ensures { result ≡ limit_now self.now.made self.now.past }
    {
        limit_of(self.made.limits, self.scrubs.used)
    }

    // Whether the next chunk gives way to no write.
    fn is_firm(&self) -> bool
        ensures { result ≡ is_firm self.now.made self.now.past }
    {
        self.scrubs.used == u64::from(self.made.limits.preemptions)
    }

    /// Where and how the next chunk of a scrub is to be opened, or why none can be. It adds no event.
    #[tactic(auto, unfolding(pgs_history::specs::Answers::unopened))]
    pub fn next_chunk(&self, serial: u64) -> Result<NextChunk, AllocError>
        requires some { is_some (primary self.now.made self.now.past) ≡ true }
        ensures { IfOk result (λ next. IsNextChunk self.now.made self.now.past serial next) }
    {
        if let Some(cause) = self.cause(serial)? {
            return Ok(NextChunk::Over { cause });
        }
        if let Some(osd) = self.claims_at() {
            return Ok(NextChunk::StillReserving { osd });
        }
        if let Some(chunk) = self.scrubs.open_number() {
            return Ok(NextChunk::Already { chunk });
        }
        let Some(primary) = self.acting().first() else {
            unreachable!()
        };
        let start = self.scrubs.start.clone()?;
        Ok(NextChunk::Next {
            primary: *primary,
            start,
            limit: self.limit_now(),
        })
    }

    // The chunk that begins where the last one ended.
    #[tactic(auto, using(crate::proofs::Scrubs::opened_most))]
    fn chunk_next(&self, serial: u64, listed: &[ObjectId]) -> Result<Chunk, AllocError>
        requires ascends { Ascends listed.now }
        ensures { IfOk result (λ chunk. chunk ≡ next_chunk self.now.made self.now.past serial listed.now) }
    {
        let limit = self.limit_now();
        let range = select(listed, &self.scrubs.start, limit)?;
        let version = self.log.newest_in(&range);
        Ok(Chunk {
            number: self.scrubs.opened + 1,
            serial,
            range,
            version,
            limit,
            firm: self.is_firm(),
        })
    }

    // Why no chunk of a scrub is opened, if none is.
    #[tactic(auto, unfolding(pgs_history::specs::Answers::unopened))]
    fn not_opened(&self, serial: u64) -> Result<Option<OpenAnswer>, AllocError>
        ensures { IfOk result (λ why. why ≡ unopened self.now.made self.now.past serial) }
    {
        if let Some(cause) = self.cause(serial)? {
            return Ok(Some(OpenAnswer::Over { cause }));
        }
        if let Some(osd) = self.claims_at() {
            return Ok(Some(OpenAnswer::StillReserving { osd }));
        }
        match self.scrubs.open_number() {
            Some(chunk) => Ok(Some(OpenAnswer::Already { chunk })),
            None => Ok(None),
        }
    }

    // Opens a chunk of the scrub that runs. No chunk is open.
    fn open_next(&mut self, serial: u64, listed: Items<ObjectId>) -> Result<OpenAnswer, AllocError>
        requires runs { unopened self.old.made self.old.past serial ≡ None }
        requires ascends { Ascends listed }
        ensures answer { IfOk result (λ a. a ≡ open_answer self.old.made self.old.past serial listed) }
        ensures kept { OnOk result (self.new ≡ record self.old { past = after_open self.old.made self.old.past serial listed }) }
        ensures err { OnErr result (self.new ≡ self.old) }
    {
        self.events.reserve(1)?;
        let chunk = self.chunk_next(serial, listed.as_slice())?;
        let kept = chunk.clone()?;
        let answered = chunk.clone()?;
        self.scrubs.open(chunk);
        self.events.push_reserved(Event::Open {
            serial,
            listed,
            answer: OpenAnswer::Opened { chunk: kept },
        });
        Ok(OpenAnswer::Opened { chunk: answered })
    }

    /// Opens a chunk of a scrub, where it runs and none is open. The positions are the primary's, from the chunk's start on.
    pub fn open(&mut self, serial: u64, listed: Items<ObjectId>) -> Result<OpenAnswer, AllocError>
        requires idle { is_admitting self.old.past ≡ false }
        requires begun { IsBegun self.old.past serial }
        requires ascends { Ascends listed }
        ensures answer { IfOk result (λ a. a ≡ open_answer self.old.made self.old.past serial listed) }
        ensures kept { OnOk result (self.new ≡ record self.old { past = after_open self.old.made self.old.past serial listed }) }
        ensures err { OnErr result (self.new ≡ self.old) }
        ensures legal { IsLegal self.old.made self.old.past → IsLegal self.new.made self.new.past }
    {
        self.events.reserve(1)?;
        if let Some(answer) = self.not_opened(serial)? {
            let told = answer.copied(self.alloc)?;
            self.events.push_reserved(Event::Open {
                serial,
                listed,
                answer,
            });
            return Ok(told);
        }
        self.open_next(serial, listed)
    }

    /// Takes a member's map of a chunk, where that is open.
    pub fn take(&mut self, place: u64, map: ScrubMap) -> Result<TakeAnswer, AllocError>
        requires idle { is_admitting self.old.past ≡ false }
        requires in_order { AreInRange map.range map.entries }
        requires of_chunk { IsOfChunk self.old.past map }
        ensures answer { IfOk result (λ a. a ≡ take_answer self.old.past map) }
        ensures kept { OnOk result (self.new ≡ record self.old { past = after_take self.old.past place map }) }
        ensures err { OnErr result (self.new ≡ self.old) }
        ensures legal { IsLegal self.old.made self.old.past → IsLegal self.new.made self.new.past }
    {
        self.events.reserve(1)?;
        let answer = self.scrubs.take_answer(map.chunk);
        self.events
            .push_reserved(Event::Take { place, map, answer });
        Ok(answer)
    }

    // What is told of a chunk that isn't open any more.
    fn ended(&self, chunk: u64) -> CloseAnswer
        requires { 0 < chunk }
        ensures { result ≡ told_of (fate self.now.made self.now.past chunk) }
    {
        match self.fates.get((chunk - 1) as usize) {
            Some(Fate::Preempted { request }) => CloseAnswer::Preempted { request: *request },
            Some(Fate::IntervalChanged { old, new }) => CloseAnswer::IntervalChanged {
                old: *old,
                new: *new,
            },
            Some(Fate::DeviceFault { osd, count }) => CloseAnswer::DeviceFault {
                osd: *osd,
                count: *count,
            },
            Some(Fate::Closed) => CloseAnswer::ClosedBefore,
            None => CloseAnswer::ClosedBefore,
        }
    }

    // Why a chunk isn't closed, if it isn't.
    #[tactic(auto, unfolding(pgs_history::specs::Answers::unclosed))]
    fn not_closed(&self, chunk: u64) -> Option<CloseAnswer>
        ensures { result ≡ unclosed self.now.made self.now.past chunk }
    {
        if chunk == 0 || self.scrubs.opened < chunk {
            return Some(CloseAnswer::NoChunk);
        }
        if !self.scrubs.is_open(chunk) {
            return Some(self.ended(chunk));
        }
        match first_missing(self.events.as_slice(), chunk, self.acting()) {
            Some(osd) => Some(CloseAnswer::NotYet { osd }),
            None => None,
        }
    }

    // What comparing the maps of a chunk finds.
    #[tactic(auto, using(crate::proofs::Scrubs::compared_so))]
    fn found(&self, chunk: u64) -> Result<Report, AllocError>
        ensures report { IfOk result (λ r. r ≡ found self.now.made self.now.past chunk) }
        ensures ordered { IfOk result (λ r. AreOrdered r.found r.snaps) }
    {
        compare(
            self.alloc,
            self.scrubs.version(),
            self.events.as_slice(),
            chunk,
            self.acting(),
        )
    }

    // Closes the chunk that is open, of which no map is missing, and keeps what was found.
    fn close_open(&mut self, chunk: u64) -> Result<CloseTold, AllocError>
        requires { unclosed self.old.made self.old.past chunk ≡ None }
        ensures answer { IfOk result (λ told. told ≡ close_told (close_answer self.old.made self.old.past chunk)) }
        ensures kept { OnOk result (self.new ≡ record self.old { past = after_close self.old.made self.old.past chunk }) }
        ensures err { OnErr result (self.new ≡ self.old) }
    {
        self.events.reserve(1)?;
        self.fates.reserve(1)?;
        self.causes.reserve(1)?;
        let report = self.found(chunk)?;
        let place = self.place();
        self.scrubs.keep(&report)?;
        let findings = report.found.len() as u64;
        let snaps = report.snaps.len() as u64;
        let completes = self.scrubs.close();
        self.fates.push_reserved(Fate::Closed);
        note_completed(&mut self.causes, completes, place, chunk);
        self.events.push_reserved(Event::Close {
            chunk,
            answer: CloseAnswer::Closed { report, completes },
        });
        Ok(CloseTold::Closed {
            findings,
            snaps,
            completes,
        })
    }

    /// Closes a chunk, where it is open and no acting OSD's map of it is missing.
    #[tactic(auto, using(pgs_history::proofs::Legal::legal_close))]
    pub fn close(&mut self, chunk: u64) -> Result<CloseTold, AllocError>
        requires idle { is_admitting self.old.past ≡ false }
        ensures answer { IfOk result (λ told. told ≡ close_told (close_answer self.old.made self.old.past chunk)) }
        ensures kept { OnOk result (self.new ≡ record self.old { past = after_close self.old.made self.old.past chunk }) }
        ensures err { OnErr result (self.new ≡ self.old) }
        ensures legal { IsLegal self.old.made self.old.past → IsLegal self.new.made self.new.past }
    {
        self.events.reserve(1)?;
        if let Some(answer) = self.not_closed(chunk) {
            let told = told_of(&answer);
            if let CloseTold::NotYet { .. } = told {
                drop(answer);
                return Ok(told);
            }
            self.events.push_reserved(Event::Close { chunk, answer });
            return Ok(told);
        }
        self.close_open(chunk)
    }

    /// Whether the scrub that began last reads the data and the omaps of copies.
    pub fn is_deep(&self) -> bool
        ensures { result ≡ is_deep (last_kind self.now.past) }
    {
        self.scrubs.is_deep()
    }
}
