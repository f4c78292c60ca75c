//! The scan of the newest ask.
ghost use Rattle.std.specs.Prelude.{◌≡◌, option_map, IfOk, IfSome};
ghost use Rattle.pgs_exchange.specs.Deposits.{deposit_of, read_deposit, as_read};
ghost use Rattle.pgs_shard_history.specs.Scanning.{scanning};
ghost use Rattle.pgs_shard_history.specs.Stores.{applied};
ghost use Rattle.pgs_shard_history.specs.declared.event.Event.TheVariants.{Scanned};
ghost use Rattle.pgs_shard_history.specs.declared.scan_event.ScanEvent.TheVariants.{Passed};
ghost use Rattle.pgs_shard.specs.Scans.{IsScanAnswer, IsScanLeft, past_after_scan, handed_in, past_after_hand, IsHandedInRange};
ghost use Rattle.pgs_shard.specs.Steps.{MayListNext, IsStatNext, IsReadNext};

use super::Shard;
use crate::scan_answer::ScanAnswer;
use crate::scan_due::ScanDue;
use pgs_crc::Tables;
use pgs_exchange::Deposit;
use pgs_medium::{Medium, MediumError};
use pgs_name::ObjectId;
use pgs_scan::{Mark, Reading, ReadingStep, unread_entry};
use pgs_shard_history::{Event, ScanEvent};
use std::alloc::AllocError;

// A step of a scan that is kept.
fn scanned(event: ScanEvent) -> Event
    ensures { result ≡ Scanned event }
{
    Event::Scanned { event }
}

// That a copy was passed.
fn passed(id: ObjectId, mark: Mark) -> Event
    ensures { result ≡ Scanned (Passed id mark) }
{
    scanned(ScanEvent::Passed { id, mark })
}

impl<M: Medium> Shard<M> {
    /// Makes one small step of the scan of the newest ask. After an error nothing has changed but how many calls of the device were
    /// made.
    pub fn scan(&mut self) -> Result<ScanAnswer, AllocError>
        ensures answer { IfOk result (λ answer. IsScanAnswer self.old.stride self.old.past answer) }
        ensures kept { self.new.past ≡ past_after_scan result self.old.past }
        ensures device { IsScanLeft self.old.stride (scanning self.old.past) (M.device self.old.medium) result (M.device self.new.medium) }
        ensures osd { self.new.osd ≡ self.old.osd }
        ensures stride { self.new.stride ≡ self.old.stride }
    {
        match self.scan.due(self.applied as u64) {
            ScanDue::Idle => Ok(ScanAnswer::Idle),
            ScanDue::NotYet { applied, needed } => Ok(ScanAnswer::NotYet { applied, needed }),
            ScanDue::Next => self.scan_next(),
            ScanDue::Stat => self.scan_stat(),
            ScanDue::Read => self.scan_read(),
        }
    }

    // Looks for the next position.
    fn scan_next(&mut self) -> Result<ScanAnswer, AllocError>
        requires { MayListNext (scanning self.old.past).ask (scanning self.old.past) (applied self.old.past) }
        ensures answer { IfOk result (λ answer. IsScanAnswer self.old.stride self.old.past answer) }
        ensures kept { self.new.past ≡ past_after_scan result self.old.past }
        ensures device { IsScanLeft self.old.stride (scanning self.old.past) (M.device self.old.medium) result (M.device self.new.medium) }
        ensures osd { self.new.osd ≡ self.old.osd }
        ensures stride { self.new.stride ≡ self.old.stride }
    {
        self.events.reserve(2)?;
        let place = self.events.len() as u64 + 1;
        let applied = self.applied as u64;
        match self.scan.next_of(&mut self.medium) {
            Ok(Some(id)) => {
                let last = id.clone()?;
                let found = id.clone()?;
                self.scan.found(last)?;
                self.events
                    .push_reserved(scanned(ScanEvent::Found { id: found }));
                Ok(ScanAnswer::Found { id })
            }
            Ok(None) => {
                let map = self.scan.encoded(self.alloc, self.osd, applied)?;
                self.scan.end(self.alloc, place, applied, map);
                self.events.push_reserved(scanned(ScanEvent::Done));
                Ok(ScanAnswer::Done)
            }
            Err(MediumError::Failed) => {
                let count = self.medium.faults();
                self.scan.fail(place, applied, count);
                self.events
                    .push_reserved(scanned(ScanEvent::ListFault { count }));
                Ok(ScanAnswer::ListFault { count })
            }
            Err(MediumError::Memory) => Err(AllocError),
        }
    }

    // Reads the size and the attributes of the copy that was found. In a shallow scrub it is passed with that.
    fn scan_stat(&mut self) -> Result<ScanAnswer, AllocError>
        requires { IsStatNext (scanning self.old.past) }
        ensures answer { IfOk result (λ answer. IsScanAnswer self.old.stride self.old.past answer) }
        ensures kept { self.new.past ≡ past_after_scan result self.old.past }
        ensures device { IsScanLeft self.old.stride (scanning self.old.past) (M.device self.old.medium) result (M.device self.new.medium) }
        ensures osd { self.new.osd ≡ self.old.osd }
        ensures stride { self.new.stride ≡ self.old.stride }
    {
        self.events.reserve(2)?;
        let id = self.scan.last()?;
        let kept = id.clone()?;
        let told = id.clone()?;
        match Reading::begin(self.alloc, &mut self.medium, &id)? {
            None => {
                let mark = Mark::StatError;
                self.scan.pass(unread_entry(self.alloc, id));
                self.events.push_reserved(passed(kept, mark));
                Ok(ScanAnswer::Passed { id: told, mark })
            }
            Some(reading) => {
                if self.scan.is_deep() {
                    self.scan.go_on(reading);
                    self.events.push_reserved(scanned(ScanEvent::More));
                    return Ok(ScanAnswer::More);
                }
                let mark = Mark::Fine;
                self.scan.pass(reading.into_shallow_entry(id));
                self.events.push_reserved(passed(kept, mark));
                Ok(ScanAnswer::Passed { id: told, mark })
            }
        }
    }

    // Reads the next part of the data or of the omap of the copy that was found.
    fn scan_read(&mut self) -> Result<ScanAnswer, AllocError>
        requires { IsReadNext (scanning self.old.past) }
        ensures answer { IfOk result (λ answer. IsScanAnswer self.old.stride self.old.past answer) }
        ensures kept { self.new.past ≡ past_after_scan result self.old.past }
        ensures device { IsScanLeft self.old.stride (scanning self.old.past) (M.device self.old.medium) result (M.device self.new.medium) }
        ensures osd { self.new.osd ≡ self.old.osd }
        ensures stride { self.new.stride ≡ self.old.stride }
    {
        self.events.reserve(2)?;
        let id = self.scan.last()?;
        let kept = id.clone()?;
        let told = id.clone()?;
        let attrs = self.scan.attrs()?;
        let tables = Tables::make(self.alloc)?;
        match self.scan.read_on(&mut self.medium, &id, self.stride)? {
            ReadingStep::More => {
                self.events.push_reserved(scanned(ScanEvent::More));
                Ok(ScanAnswer::More)
            }
            ReadingStep::Whole => {
                let mark = Mark::Fine;
                let entry = self.scan.deep_entry(&tables, id, attrs);
                self.scan.pass(entry);
                self.events.push_reserved(passed(kept, mark));
                Ok(ScanAnswer::Passed { id: told, mark })
            }
            ReadingStep::Failed => {
                let mark = Mark::ReadError;
                let entry = self.scan.half_read_entry(id, attrs);
                self.scan.pass(entry);
                self.events.push_reserved(passed(kept, mark));
                Ok(ScanAnswer::Passed { id: told, mark })
            }
        }
    }

    /// Hands what the scan of the newest ask ended with, once. It takes no memory.
    #[tactic(auto, using(crate::proofs::Steps::hands))]
    pub fn hand(&mut self) -> Option<Deposit>
        ensures handed { result ≡ option_map deposit_of (handed_in self.old.osd (scanning self.old.past)) }
        // A map's bytes are decoded as the map.
        ensures again { option_map read_deposit result ≡ option_map as_read (handed_in self.old.osd (scanning self.old.past)) }
        ensures kept { self.new ≡ record self.old { past = past_after_hand (handed_in self.old.osd (scanning self.old.past)) self.old.past } }

        // The entries of a map are in order and of its range.
        ensures in_range { IfSome (handed_in self.old.osd (scanning self.old.past)) IsHandedInRange }
    {
        let deposit = self.scan.hand(self.alloc, self.osd)?;
        self.events.push_reserved(Event::Handed);
        Some(deposit)
    }
}
