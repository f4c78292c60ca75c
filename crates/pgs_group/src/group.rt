ghost use Rattle.std.specs.Prelude.{◌≡◌, [], reverse, is_some, IfOk, OnOk, OnErr};
ghost use Rattle.std.specs.Option.{option_copied};
ghost use Rattle.pgs_op_log.specs.Logs.{version_in};
ghost use Rattle.pgs_history.specs.Log.{ids};
ghost use Rattle.pgs_history.specs.Answers.{next_version};
ghost use Rattle.pgs_history.specs.Legal.{IsLegal};
ghost use Rattle.pgs_history.specs.Acting.{acting, acts, epoch};
ghost use Rattle.pgs_history.specs.Causes.{cause};
ghost use Rattle.pgs_history.specs.Scrubs.{begun, present, running, opened, open_chunk};
ghost use Rattle.pgs_history.specs.Joined.{AreCaughtUp, AreAcknowledged};
ghost use Rattle.pgs_history.specs.Parked.{parked, AreNew, AreWaiting, NoneAbove};
ghost use Rattle.pgs_history.specs.Facts.{AreDistinct};
ghost use Rattle.pgs_history.specs.Chunks.{AreFated, AreTiled, AreCaused};
ghost use Rattle.pgs_history.specs.Findings.{findings};
ghost use Rattle.pgs_group.specs.Weighed.{AreMade};
ghost use Rattle.pgs_group.specs.Steps.{answer_of, after, IsProper};

use crate::acting::Acting;
use crate::counts::Counts;
use crate::given::Given;
use crate::osds;
use crate::scrubbing::Scrubbing;
use crate::step::{Answer, Step};
use pgs_copy::Effect;
use pgs_gate::Waiting;
use pgs_history::{Cause, Chunk, Event, Fate, Made};
use pgs_incons::Findings;
use pgs_op::{CleanStore, Write, WriteError, make_effects};
use pgs_op_log::GroupLog;
use pgs_range::Bound;
use pgs_request::{Refusal, ReqId, Version};
use sqlite_items::Items;
use std::alloc::{AllocError, Global};
use std::collections::HashSet;
use std::marker::Model;

mod admissions;
mod endings;
mod intervals;
mod members;
mod reserving;
mod scrubs;
mod weighing;
mod writes;

/// A group of the pool, seen as what it was made with and its kept events, the newest first.
#[derive(Drop)]
pub struct Group {
    alloc: Global,
    made: Made,
    events: Vec<Event>,
    log: GroupLog,
    clean: CleanStore,
    waiting: Waiting,
    refused: Vec<(ReqId, Refusal)>,
    given: Given,
    told: Counts,
    collected: HashSet<ReqId>,
    scrubs: Scrubbing,
    acting: Acting,
    causes: Vec<Cause>,
    fates: Vec<Fate>,
}

impl Model for Group {
    ghost use Rattle.std.specs.Prelude.{reverse};
    ghost use Rattle.pgs_history.specs.History.{History};

    ghost Value = { History };

    ghost use Rattle.pgs_group.specs.Tied.{AreTied, history_of};

    ghost view = { history_of };

    ghost invariant = { λ g. AreTied g (reverse g.events.items) };
}

impl Group {
    /// A group with no event. It takes no memory.
    pub fn new(alloc: Global, made: Made) -> Group
        ensures { result ≡ record { made = made; past = [] } }
    {
        let epoch = made.epoch;
        Group {
            alloc,
            made,
            events: Vec::new(alloc),
            log: GroupLog::new(alloc),
            clean: CleanStore::new(alloc),
            waiting: Waiting::new(alloc),
            refused: Vec::new(alloc),
            given: Given::new(alloc),
            told: Counts::new(alloc),
            collected: HashSet::new(alloc),
            scrubs: Scrubbing {
                begun: 0,
                opened: 0,
                current: None,
                open_chunk: None,
                start: Bound::Min,
                used: 0,
                kind: None,
                findings: Findings::new(alloc),
            },
            acting: Acting { epoch, osds: None },
            causes: Vec::new(alloc),
            fates: Vec::new(alloc),
        }
    }

    // The version of the next item of the log.
    fn next_version(&self) -> Version
        ensures { result ≡ next_version self.now.made self.now.past }
    {
        Version {
            epoch: self.acting.epoch,
            number: self.log.len() + 1,
        }
    }

    // The version that a request has in the log.
    fn version_of(&self, id: ReqId) -> Option<Version>
        ensures { result ≡ version_in (ids self.now.past) id }
    {
        self.log.version_of(id)
    }

    // The effects of a write that gets the next version.
    #[tactic(auto, using(crate::proofs::Makes::made_so))]
    fn make(&self, write: &Write) -> Result<Items<(u64, Effect)>, WriteError>
        ensures { AreMade result self.now.made self.now.past write.now }
    {
        let version = self.next_version();
        make_effects(self.alloc, &self.clean, self.log.bytes(), write, version)
    }

    /// Makes a step of any kind.
    pub fn step(&mut self, step: Step) -> Result<Answer, AllocError>
        requires proper { IsProper self.old step }
        ensures answer { IfOk result (λ a. a ≡ answer_of self.old step) }
        ensures kept { OnOk result (self.new ≡ after self.old step) }
        ensures err { OnErr result (self.new ≡ self.old) }
        ensures legal { IsLegal self.old.made self.old.past → IsLegal self.new.made self.new.past }
    {
        match step {
            Step::Submit { write } => {
                let answer = self.submit(write)?;
                Ok(Answer::Submit { answer })
            }
            Step::Admit => {
                let admitted = self.admit_next()?;
                Ok(Answer::Admit { admitted })
            }
            Step::Collect { id } => {
                let answer = self.collect(id)?;
                Ok(Answer::Collect { answer })
            }
            Step::Pull { osd } => {
                let pulled = self.pull(osd)?;
                Ok(Answer::Pull { pulled })
            }
            Step::Tell { osd, applied } => {
                let applied = self.tell(osd, applied)?;
                Ok(Answer::Tell { applied })
            }
            Step::Begin { kind } => {
                let answer = self.begin(kind)?;
                Ok(Answer::Begin { answer })
            }
            Step::Reserve {
                serial,
                osd,
                denied,
            } => {
                let answer = self.reserve(serial, osd, denied)?;
                Ok(Answer::Reserve { answer })
            }
            Step::Open { serial, listed } => {
                let answer = self.open(serial, listed)?;
                Ok(Answer::Open { answer })
            }
            Step::Take { place, map } => {
                let answer = self.take(place, map)?;
                Ok(Answer::Take { answer })
            }
            Step::Close { chunk } => {
                let answer = self.close(chunk)?;
                Ok(Answer::Close { answer })
            }
            Step::Fault {
                serial,
                chunk,
                osd,
                count,
            } => {
                let answer = self.fault(serial, chunk, osd, count)?;
                Ok(Answer::Fault { answer })
            }
            Step::Interval { acting } => {
                let answer = self.interval(acting)?;
                Ok(Answer::Interval { answer })
            }
        }
    }

    /// What it was made with.
    pub fn made(&self) -> &Made
        ensures { result.now ≡ self.now.made }
    {
        &self.made
    }

    /// The scrub that runs.
    pub fn running(&self) -> Option<u64>
        ensures { result ≡ running self.now.past }
    {
        self.scrubs.running()
    }

    /// The scrub that reserves or runs.
    pub fn present(&self) -> Option<u64>
        ensures { result ≡ present self.now.past }
    {
        self.scrubs.present()
    }

    /// Whether a scrub has ended.
    pub fn is_over(&self, serial: u64) -> bool
        ensures { result ≡ is_some (cause self.now.made self.now.past serial) }
    {
        let place = serial.saturating_sub(1);
        self.causes.get(place as usize).is_some()
    }

    /// The number of the scrub that began last, or 0.
    pub fn last_scrub(&self) -> u64
        ensures { result ≡ begun self.now.past }
    {
        self.scrubs.begun
    }

    /// The OSDs that act, the primary first.
    pub fn acting(&self) -> &[u32]
        ensures { result.now ≡ acting self.now.made self.now.past }
    {
        match &self.acting.osds {
            Some(osds) => osds.as_slice(),
            None => self.made.members.as_slice(),
        }
    }

    /// The epoch.
    pub fn epoch(&self) -> u32
        ensures { result ≡ epoch self.now.made self.now.past }
    {
        self.acting.epoch
    }

    // Whether an OSD acts.
    fn acts(&self, osd: u32) -> bool
        ensures { result ≡ acts self.now.made self.now.past osd }
    {
        osds::has(self.acting(), osd)
    }

    /// The number of the chunk that was opened last, or 0.
    pub fn last_chunk(&self) -> u64
        ensures { result ≡ opened self.now.past }
    {
        self.scrubs.opened
    }

    /// The chunk that is open. Of a legal history there is one at most, and each other chunk was closed or gave way once.
    #[tactic(auto, using(pgs_history::proofs::Fates::fated))]
    pub fn open_chunk(&self) -> Option<&Chunk>
        ensures value { option_copied result ≡ open_chunk self.now.past }
        ensures fates { IsLegal self.now.made self.now.past → AreFated self.now.made self.now.past }
    {
        self.scrubs.open_chunk.as_ref()
    }

    /// What is kept of all that its scrubs found: of each family what the chunk found that had it and was closed last.
    pub fn findings(&self) -> &Findings
        ensures { result.now ≡ findings self.now.past }
    {
        &self.scrubs.findings
    }

    /// Its events, the oldest first. The closed chunks of each scrub lie in a row from the least bound on, and those of one
    /// that is complete hold each family once. Writes wait only in the range of a firm chunk, and nothing came into the range
    /// of an open chunk after it was opened. No request stands in the log twice, nor waits twice or waits and stands there.
    /// Each scrub that ended has one cause. An OSD that came to act had told of all the log, and each that acts told of every
    /// write that was acknowledged.
    #[tactic(auto, using(pgs_history::proofs::Rows::tiled, pgs_history::proofs::Gates::waiting, pgs_history::proofs::Gates::none_above, pgs_history::proofs::Ids::distinct, pgs_history::proofs::Ids::waits_apart, pgs_history::proofs::Causes::caused, pgs_history::proofs::Joined::caught_up, pgs_history::proofs::Joined::acknowledged))]
    pub fn into_events(self) -> Items<Event>
        ensures value { reverse result ≡ self.past }
        ensures tiled { IsLegal self.made self.past → AreTiled self.past }
        ensures waiting { IsLegal self.made self.past → AreWaiting self.past }
        ensures outside { IsLegal self.made self.past → NoneAbove self.past }
        ensures distinct { IsLegal self.made self.past → AreDistinct (ids self.past) }
        ensures apart { IsLegal self.made self.past → AreNew (ids self.past) (parked self.past) }
        ensures caused { IsLegal self.made self.past → AreCaused self.made self.past }
        ensures caught_up { IsLegal self.made self.past → AreCaughtUp self.made self.past }
        ensures acknowledged { IsLegal self.made self.past → AreAcknowledged self.made self.past }
    {
        Items::from_vec(self.events)
    }
}
