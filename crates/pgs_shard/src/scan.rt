ghost use Rattle.std.specs.Prelude.{◌≡◌, ◌≤◌, nat_lt, is_none, is_some, true, false, Some, option_map, IfOk, IfSome, OnOk, OnErr, if◌then◌else◌};
ghost use Rattle.pgs_map.specs.Entries.{entry_of};
ghost use Rattle.pgs_scan.specs.Seen.{entry_without_digests};
ghost use Rattle.pgs_exchange.specs.Deposits.{deposit_of, read_deposit, as_read};
ghost use Rattle.pgs_shard_history.specs.Scanning as scannings;
ghost use Rattle.pgs_shard_history.specs.Scans.{map_of};
ghost use Rattle.pgs_shard_history.specs.declared.phase.Phase.TheVariants.{Reading as ReadingPhase};
ghost use Rattle.pgs_shard.specs.Scan as defined;
ghost use Rattle.pgs_shard.specs.Steps.{IsListedFor, IsFrontOf, IsReadFor};
ghost use Rattle.pgs_shard.specs.declared.scan_due.ScanDue.TheVariants.{NotYet, Next, Stat, Read};

use crate::scan_due::ScanDue;
use pgs_chunk::Ask;
use pgs_copy::Pairs;
use pgs_crc::Tables;
use pgs_exchange::{Deposit, EncodedMap, Handed};
use pgs_map::{Entry, ScrubMap};
use pgs_medium::{Item, Medium, MediumError};
use pgs_name::{Family, ObjectId};
use pgs_range::Cursor;
use pgs_scan::{Reading, ReadingStep};
use pgs_shard_history::Phase;
use sqlite_items::Items;
use std::alloc::{AllocError, Global};
use std::marker::Model;

/// The newest ask of a shard, and where its scan is.
#[derive(Drop)]
pub struct Scan {
    ask: Option<Ask>,
    phase: Phase,
    // The position that was found last.
    last: Option<ObjectId>,
    // What was read of its copy, once its size and attributes were.
    reading: Option<Reading>,
    // The entries of the copies that were passed. While a copy is read there is room for its own.
    entries: Vec<Entry>,
    // The map with which the scan ended: the entries stand in it.
    map: Option<EncodedMap>,
}

impl Model for Scan {
    ghost use Rattle.std.specs.Prelude.{vec_len, vec_capacity};
    ghost use Rattle.pgs_shard.specs.Scan.{Scan as Kept, HasRoom};

    ghost Value = { Kept };

    ghost view = { λ s. record {
      ask = s.ask;
      phase = s.phase;
      last = s.last;
      reading = s.reading;
      entries = s.entries.items;
      map = s.map;
    } };

    ghost invariant = { λ s. HasRoom s.phase (vec_len s.entries) (vec_capacity s.entries) };
}

impl Scan {
    /// No ask. It takes no memory.
    pub fn new(alloc: Global) -> Scan
        ensures { result ≡ defined.no_scan }
    {
        Scan {
            ask: None,
            phase: Phase::Waiting,
            last: None,
            reading: None,
            entries: Vec::new(alloc),
            map: None,
        }
    }

    // Nothing is left of the scan of the ask, which is then in this phase.
    fn clear(&mut self, alloc: Global, phase: Phase)
        requires { scannings.is_reading phase ≡ false }
        ensures { self.new ≡ defined.cleared phase self.old }
    {
        self.phase = phase;
        self.last = None;
        self.reading = None;
        self.entries = Vec::new(alloc);
        self.map = None;
    }

    // Whether an ask is of a later chunk than the kept one.
    fn is_newer(&self, ask: &Ask) -> bool
        ensures { result ≡ defined.is_later self.now ask.now }
    {
        match &self.ask {
            Some(kept) => kept.chunk < ask.chunk,
            None => true,
        }
    }

    /// Takes an ask, unless it has one of the same chunk or of a later one.
    pub fn take_ask(&mut self, alloc: Global, ask: Ask)
        ensures { self.new ≡ defined.asked ask self.old }
    {
        if self.is_newer(&ask) {
            self.clear(alloc, Phase::Waiting);
            self.ask = Some(ask);
        }
    }

    /// The same, if there is one.
    pub fn take_ask_if(&mut self, alloc: Global, ask: Option<Ask>)
        ensures { self.new ≡ defined.asked_if ask self.old }
    {
        if let Some(ask) = ask {
            self.take_ask(alloc, ask);
        }
    }

    // Whether a family is of the ask's range.
    fn is_asked(&self, family: &Family) -> bool
        ensures { result ≡ defined.is_asked self.now family.now }
    {
        match &self.ask {
            Some(ask) => ask.range.in_range(family),
            None => false,
        }
    }

    // Whether an item of the range drops it.
    fn can_drop(&self) -> bool
        ensures { result ≡ defined.drops_in self.now }
    {
        match self.phase {
            Phase::Between => true,
            Phase::Reading => true,
            Phase::Mapped { .. } => true,
            _ => false,
        }
    }

    // The number of the asked chunk.
    fn chunk(&self) -> Option<u64>
        ensures { result ≡ defined.chunk_asked self.now.ask }
    {
        match &self.ask {
            Some(ask) => Some(ask.chunk),
            None => None,
        }
    }

    // The phase of a scan that is dropped: one that runs begins anew.
    fn phase_dropped(&self) -> Phase
        ensures phase { result ≡ defined.dropped self.now.phase }
        ensures idle { scannings.is_reading result ≡ false }
    {
        match self.phase {
            Phase::Between => Phase::Waiting,
            Phase::Reading => Phase::Waiting,
            Phase::Mapped { .. } => Phase::Over,
            phase => phase,
        }
    }

    /// An item was applied. It drops the scan or its map, where it is of a family of the range.
    pub fn item_applied(&mut self, alloc: Global, item: &Item) -> Option<u64>
        ensures drops { result ≡ defined.drop_in self.old item.now.family }
        ensures left { self.new ≡ defined.after_drop_in result self.old }
    {
        if !self.can_drop() || !self.is_asked(&item.family) {
            return None;
        }
        let chunk = self.chunk();
        let phase = self.phase_dropped();
        self.clear(alloc, phase);
        chunk
    }

    /// Whether a copy was found and isn't passed.
    pub fn is_reading(&self, family: &Family, snap: u64) -> bool
        ensures { result ≡ defined.reads self.now family.now snap }
    {
        match &self.last {
            Some(last) => {
                self.phase == Phase::Reading && last.family == *family && last.snap == snap
            }
            None => false,
        }
    }

    /// What its next step does, where so many items are applied.
    pub fn due(&self, applied: u64) -> ScanDue
        ensures { result ≡ defined.due_in self.now applied }
    {
        match &self.ask {
            Some(ask) => self.due_of(ask, applied),
            None => ScanDue::Idle,
        }
    }

    fn due_of(&self, ask: &Ask, applied: u64) -> ScanDue
        ensures { result ≡ defined.due_at self.now.phase self.now.reading ask.now applied }
    {
        match self.phase {
            Phase::Waiting => self.due_first(ask.needed, applied),
            Phase::Between => ScanDue::Next,
            Phase::Reading => self.due_in_copy(),
            _ => ScanDue::Idle,
        }
    }

    // Before its first step: the item that it needs is to be applied.
    fn due_first(&self, needed: u64, applied: u64) -> ScanDue
        ensures { result ≡ (if nat_lt applied needed then NotYet applied needed else Next) }
    {
        if applied < needed {
            return ScanDue::NotYet { applied, needed };
        }
        ScanDue::Next
    }

    // Once a copy was found: its size and attributes are read first.
    fn due_in_copy(&self) -> ScanDue
        ensures { result ≡ (if is_none self.now.reading then Stat else Read) }
    {
        match &self.reading {
            Some(_) => ScanDue::Read,
            None => ScanDue::Stat,
        }
    }

    /// Whether it reads the data and the omaps of copies.
    pub fn is_deep(&self) -> bool
        ensures { result ≡ scannings.is_deep self.now.ask }
    {
        match &self.ask {
            Some(ask) => ask.deep,
            None => false,
        }
    }

    /// Where it looks for the next position.
    pub fn cursor(&self, ask: &Ask) -> Result<Cursor, AllocError>
        ensures { IfOk result (λ cursor. cursor ≡ scannings.cursor_of ask.now self.now.last) }
    {
        match &self.last {
            Some(id) => {
                let id = id.clone()?;
                Ok(Cursor::After { id })
            }
            None => {
                let bound = ask.range.from.clone()?;
                Ok(Cursor::At { bound })
            }
        }
    }

    /// A position was found.
    pub fn found(&mut self, id: ObjectId) -> Result<(), AllocError>
        ensures ok { OnOk result (self.new ≡ defined.found id self.old) }
        ensures err { OnErr result (self.new ≡ self.old) }
    {
        self.entries.reserve(1)?;
        self.phase = Phase::Reading;
        self.last = Some(id);
        self.reading = None;
        self.map = None;
        Ok(())
    }

    /// More is left of its copy than this.
    pub fn go_on(&mut self, reading: Reading)
        ensures { self.new ≡ defined.going_on reading self.old }
    {
        self.reading = Some(reading);
    }

    /// Its copy was passed. It takes no memory.
    pub fn pass(&mut self, entry: Entry)
        requires { self.old.phase ≡ ReadingPhase }
        ensures { self.new ≡ defined.passed entry self.old }
    {
        self.entries.push_reserved(entry);
        self.phase = Phase::Between;
        self.reading = None;
        self.map = None;
    }

    /// It ended with this map, when the shard had so many events and had applied so many items.
    pub fn end(&mut self, alloc: Global, place: u64, applied: u64, map: EncodedMap)
        ensures { self.new ≡ defined.mapped place applied map self.old }
    {
        self.phase = Phase::Mapped { place, applied };
        self.entries = Vec::new(alloc);
        self.map = Some(map);
    }

    /// It ended with a fault.
    pub fn fail(&mut self, place: u64, applied: u64, count: u64)
        ensures { self.new ≡ defined.failed place applied count self.old }
    {
        self.phase = Phase::Failed {
            place,
            applied,
            count,
        };
        self.map = None;
    }

    /// The position that was found last.
    pub fn last(&self) -> Result<ObjectId, AllocError>
        requires { is_some self.now.last ≡ true }
        ensures { IfOk result (λ id. Some id ≡ self.now.last) }
    {
        let Some(id) = &self.last else {
            unreachable!();
        };
        id.clone()
    }

    // Copies of the entries of the copies that were passed.
    #[tactic(auto, using(crate::proofs::Copies::copied))]
    fn passed(&self) -> Result<Items<Entry>, AllocError>
        ensures { IfOk result (λ entries. entries ≡ self.now.entries) }
    {
        let entries = self.entries.clone()?;
        Ok(Items::from_vec(entries))
    }

    /// The map with which it ends where so many items are applied, of a member.
    pub fn encoded(&self, alloc: Global, osd: u32, applied: u64) -> Result<EncodedMap, AllocError>
        requires { is_some self.now.ask ≡ true }
        ensures { IfOk result (λ map. Some map ≡ option_map (λ ask. map_of osd ask applied self.now.entries) self.now.ask) }
    {
        let Some(ask) = &self.ask else {
            unreachable!();
        };
        let range = ask.range.clone()?;
        let entries = self.passed()?;
        let map = ScrubMap {
            osd,
            serial: ask.serial,
            chunk: ask.chunk,
            needed: ask.needed,
            applied,
            range,
            entries,
        };
        EncodedMap::new(alloc, &map)
    }

    /// The next position of the range that was asked for.
    pub fn next_of<M: Medium>(&self, medium: &mut M) -> Result<Option<ObjectId>, MediumError>
        requires { is_some self.now.ask ≡ true }
        ensures { IsListedFor self.now.ask self.now.last (M.device medium.old) result (M.device medium.new) }
    {
        let Some(ask) = &self.ask else {
            unreachable!();
        };
        let cursor = self.cursor(ask)?;
        medium.next(&cursor, &ask.range.to)
    }

    /// The attributes that were read.
    pub fn attrs(&self) -> Result<Pairs, AllocError>
        requires { is_some self.now.reading ≡ true }
        ensures { IfOk result (λ attrs. Some attrs ≡ option_map (λ read. read.copy.attrs) self.now.reading) }
    {
        let Some(reading) = &self.reading else {
            unreachable!();
        };
        reading.attrs()
    }

    /// Reads the next part of the copy that was found last.
    pub fn read_on<M: Medium>(
        &mut self,
        medium: &mut M,
        id: &ObjectId,
        stride: u32,
    ) -> Result<ReadingStep, AllocError>
        requires stride { 1 ≤ stride }
        requires front { IsFrontOf ((M.device medium.old).stored id.now.family id.now.snap) self.old.reading }
        ensures { IsReadFor stride ((M.device medium.old).stored id.now.family id.now.snap) (M.device medium.old) self.old result (M.device medium.new) self.new }
    {
        let Some(reading) = &mut self.reading else {
            unreachable!();
        };
        reading.read_on(medium, id, stride)
    }

    /// The entry of the copy that was read whole.
    pub fn deep_entry(&self, tables: &Tables<1>, id: ObjectId, attrs: Pairs) -> Entry
        requires { is_some self.now.reading ≡ true }
        ensures { IfSome self.now.reading (λ read. read.copy.attrs ≡ attrs → result ≡ entry_of true id read.copy) }
    {
        let Some(reading) = &self.reading else {
            unreachable!();
        };
        reading.deep_entry(tables, id, attrs)
    }

    /// The entry of the copy at which the device failed.
    pub fn half_read_entry(&self, id: ObjectId, attrs: Pairs) -> Entry
        requires { is_some self.now.reading ≡ true }
        ensures { IfSome self.now.reading (λ read. result ≡ entry_without_digests true id read.size attrs) }
    {
        let Some(reading) = &self.reading else {
            unreachable!();
        };
        reading.half_read_entry(id, attrs)
    }

    /// What it ended with is handed, of a member, if it has ended. It takes no memory.
    pub fn hand(&mut self, alloc: Global, osd: u32) -> Option<Deposit>
        ensures handed { result ≡ option_map deposit_of (defined.handed osd self.old) }
        ensures again { option_map read_deposit result ≡ option_map as_read (defined.handed osd self.old) }
        ensures left { self.new ≡ defined.after_handing (defined.handed osd self.old) self.old }
    {
        let Some(ask) = &self.ask else {
            return None;
        };
        let serial = ask.serial;
        let chunk = ask.chunk;
        match self.phase {
            Phase::Mapped { place, applied } => {
                let map = self.map.take()?;
                self.clear(alloc, Phase::Over);
                Some(Deposit {
                    osd,
                    serial,
                    chunk,
                    applied,
                    place,
                    found: Handed::Map {
                        text: map.into_text(),
                    },
                })
            }
            Phase::Failed {
                place,
                applied,
                count,
            } => {
                self.clear(alloc, Phase::Over);
                Some(Deposit {
                    osd,
                    serial,
                    chunk,
                    applied,
                    place,
                    found: Handed::ListFault { count },
                })
            }
            _ => None,
        }
    }
}
