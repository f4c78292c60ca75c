ghost use Rattle.std.specs.Prelude.{◌≡◌, ◌≤◌, [], length, reverse, OnOk, OnErr, IfOk};
ghost use Rattle.pgs_store.specs.Stores.{nothing_stored, is_stored};
ghost use Rattle.pgs_shard_history.specs.Feeds.{AreNext, AreNumbered, fed};
ghost use Rattle.pgs_shard_history.specs.Stores.{applied, stored_by};
ghost use Rattle.pgs_shard.specs.Answers.{IsApplied, IsDamaged, past_after_apply, past_after_damage};
ghost use Rattle.pgs_shard_history.specs.Held.{damage_answer};
ghost use Rattle.pgs_shard_history.specs.Legal.{IsLegal};
ghost use Rattle.pgs_shard_history.specs.Laws.{IsLawful};
ghost use Rattle.pgs_chunk.specs.Listings.{IsListOf, listing};
ghost use Rattle.pgs_shard_history.specs.Positions.{positions};
ghost use Rattle.pgs_shard.specs.Listed.{IsListAnswer, past_after_list};
ghost use Rattle.pgs_shard.specs.State.{with_event};
ghost use Rattle.pgs_shard_history.specs.declared.event.Event.TheVariants.{Fed};

use crate::applied::Applied;
use crate::apply_error::ApplyError;
use crate::damaging::room_answer;
use crate::items_beyond::copied_beyond;
use crate::list_error::ListError;
use crate::listing::list_on;
use crate::scan::Scan;
use crate::writing::write_at;
use pgs_chunk::Ask;
use pgs_copy::Damage;
use pgs_medium::{Item, Medium, MediumError};
use pgs_name::{Family, ObjectId};
use pgs_range::Bound;
use pgs_shard_history::{DamageAnswer, Event};
use sqlite_items::Items;
use std::alloc::{AllocError, Global};
use std::marker::Model;

mod scans;

/// One member's store with its history, and the scan of its newest ask.
#[derive(Drop)]
pub struct Shard<M: Medium> {
    alloc: Global,
    osd: u32,
    stride: u32,
    medium: M,
    items: Vec<Item>,
    applied: usize,
    scan: Scan,
    // Once the scan has ended there is room for the event by which its result is handed.
    events: Vec<Event>,
}

impl<M: Medium> Model for Shard<M> {
    ghost use Rattle.std.specs.Prelude.{reverse, vec_len, vec_capacity};
    ghost use Rattle.pgs_shard.specs.Scan.{HasRoomToHand};
    ghost use Rattle.pgs_shard.specs.State.{ShardState, IsTied};

    ghost Value = { ShardState M };

    ghost view = { λ s. record {
      osd = s.osd;
      stride = s.stride;
      past = reverse s.events.items;
      medium = s.medium;
    } };

    ghost invariant = { λ s. IsTied s.osd s.stride (M.device s.medium) s.items.items s.applied s.scan (reverse s.events.items) × HasRoomToHand s.scan.phase (vec_len s.events) (vec_capacity s.events) };
}

impl<M: Medium> Shard<M> {
    /// A shard over a device that holds nothing. It was fed nothing yet. Its scans read so many bytes of a copy's data at a step.
    pub fn new(alloc: Global, medium: M, osd: u32, stride: u32) -> Shard<M>
        requires empty { (M.device medium).stored ≡ nothing_stored }
        requires stride { 1 ≤ stride }
        ensures { result ≡ record { osd = osd; stride = stride; past = []; medium = medium } }
    {
        Shard {
            alloc,
            osd,
            stride,
            medium,
            items: Vec::new(alloc),
            applied: 0,
            scan: Scan::new(alloc),
            events: Vec::new(alloc),
        }
    }

    /// The member's number.
    pub fn osd(&self) -> u32
        ensures { result ≡ self.now.osd }
    {
        self.osd
    }

    /// The number of the item that was applied last: 0 before the first.
    pub fn applied(&self) -> u64
        ensures value { result ≡ applied self.now.past }
        ensures within { result ≤ length (fed self.now.past) }
    {
        self.applied as u64
    }

    /// How many items it was fed, which is the last one's number.
    pub fn fed_count(&self) -> u64
        ensures { result ≡ length (fed self.now.past) }
    {
        self.items.len() as u64
    }

    /// The device. It holds what the history says.
    pub fn medium(&self) -> &M
        ensures value { result.now ≡ self.now.medium }
        ensures stored { (M.device self.now.medium).stored ≡ stored_by self.now.past }

        // The positions that the history names and at which a copy is stored are all at which one is.
        ensures positions { IsListOf (is_stored (stored_by self.now.past)) (positions self.now.past) }
    {
        &self.medium
    }

    /// The history, the oldest event first. The items that it feeds are numbered from 1, without a gap.
    #[tactic(auto, using(crate::proofs::Ties::lawful_now))]
    pub fn events(&self) -> &[Event]
        ensures value { result.now ≡ reverse self.now.past }
        ensures numbered { AreNumbered (fed self.now.past) }
        ensures legal { IsLegal self.now.stride self.now.past }
        ensures lawful { IsLawful self.now.past }
    {
        self.events.as_slice()
    }

    /// Takes items, numbered from one after `from` on. Those that it has are passed over. An ask of a later chunk than the kept one
    /// replaces it, with its scan and what that ended with.
    #[tactic(auto, using(pgs_shard_history::proofs::Feeds::numbered_more))]
    pub fn feed(
        &mut self,
        from: u64,
        items: Items<Item>,
        ask: Option<Ask>,
    ) -> Result<(), AllocError>
        requires next { AreNext from items }
        requires from { from ≤ length (fed self.old.past) }
        ensures kept { OnOk result (self.new ≡ with_event (Fed from items ask) self.old) }
        ensures err { OnErr result (self.new ≡ self.old) }
    {
        let mut fresh = copied_beyond(self.alloc, self.items.len() as u64, items.as_slice())?;
        let kept = ask.clone()?;
        self.events.reserve(2)?;
        self.items.append(&mut fresh)?;
        self.scan.take_ask_if(self.alloc, kept);
        self.events.push_reserved(Event::Fed { from, items, ask });
        Ok(())
    }

    /// Applies the next item, and drops the scan or the map whose range it touches. After an error it waits, and nothing of the store
    /// has changed.
    #[tactic(auto, using(pgs_shard_history::proofs::Feeds::found))]
    pub fn apply_next(&mut self) -> Result<Applied, ApplyError>
        ensures answer { IsApplied self.old.past (M.device self.old.medium) result (M.device self.new.medium) }
        ensures kept { self.new.past ≡ past_after_apply result self.old.past }
        ensures osd { self.new.osd ≡ self.old.osd }
        ensures stride { self.new.stride ≡ self.old.stride }
        ensures failing { (M.device self.new.medium).failing ≡ (M.device self.old.medium).failing }
    {
        if self.applied == self.items.len() {
            return Ok(Applied::NotYet {
                applied: self.applied as u64,
            });
        }
        self.events.reserve(2)?;
        match write_at(&mut self.medium, self.items.as_slice(), self.applied) {
            Ok(()) => {
                let drops = self
                    .scan
                    .item_applied(self.alloc, &self.items[self.applied]);
                self.applied += 1;
                let number = self.applied as u64;
                self.events.push_reserved(Event::Applied { number, drops });
                Ok(Applied::Applied { number, drops })
            }
            Err(MediumError::Failed) => {
                let count = self.medium.faults();
                self.events.push_reserved(Event::DeviceFault { count });
                Err(ApplyError::DeviceFault { count })
            }
            Err(MediumError::Memory) => Err(ApplyError::Memory),
        }
    }

    /// The positions from a bound on, in order, until more than `limit` of at least two families are listed. The device is asked for
    /// one after the other, and a failure ends that. After an error nothing of the store has changed.
    pub fn list(&mut self, start: &Bound, limit: u32) -> Result<Items<ObjectId>, ListError>
        ensures listed { IfOk result (λ ids. ids ≡ listing limit start.now (positions self.old.past)) }
        ensures answer { IsListAnswer limit (listing limit start.now (positions self.old.past)) (M.device self.old.medium) result (M.device self.new.medium) }
        ensures kept { self.new.past ≡ past_after_list result self.old.past }
        ensures osd { self.new.osd ≡ self.old.osd }
        ensures stride { self.new.stride ≡ self.old.stride }
        ensures failing { (M.device self.new.medium).failing ≡ (M.device self.old.medium).failing }
    {
        self.events.reserve(2)?;
        match list_on(
            &mut self.medium,
            self.alloc,
            self.events.as_slice(),
            start,
            limit,
        ) {
            Ok(listed) => Ok(listed),
            Err(MediumError::Failed) => {
                let count = self.medium.faults();
                self.events.push_reserved(Event::ListFailed { count });
                Err(ListError::ListFault { count })
            }
            Err(MediumError::Memory) => Err(ListError::Memory),
        }
    }

    /// Does damage to the copy at a snap of a family, unless a scan is reading it, or the copies would then hold more than before and
    /// more than they may. It is kept either way.
    pub fn damage(
        &mut self,
        family: Family,
        snap: u64,
        damage: Damage,
    ) -> Result<DamageAnswer, AllocError>
        ensures answer { IfOk result (λ a. a ≡ damage_answer self.old.past family snap damage) }
        ensures device { IsDamaged family snap damage (M.device self.old.medium) result (M.device self.new.medium) }
        ensures kept { self.new.past ≡ past_after_damage family snap damage result self.old.past }
        ensures osd { self.new.osd ≡ self.old.osd }
        ensures stride { self.new.stride ≡ self.old.stride }
        ensures failing { (M.device self.new.medium).failing ≡ (M.device self.old.medium).failing }
    {
        if self.events.reserve(2).is_err() {
            drop(damage);
            return Err(AllocError);
        }
        match self.answer_to(&family, snap, &damage) {
            Ok(DamageAnswer::Damaged) => {
                if self.medium.damage(&family, snap, &damage).is_err() {
                    drop(damage);
                    return Err(AllocError);
                }
                self.events.push_reserved(Event::Damaged {
                    family,
                    snap,
                    damage,
                    answer: DamageAnswer::Damaged,
                });
                Ok(DamageAnswer::Damaged)
            }
            Ok(answer) => {
                self.events.push_reserved(Event::Damaged {
                    family,
                    snap,
                    damage,
                    answer,
                });
                Ok(answer)
            }
            Err(refused) => {
                drop(damage);
                Err(refused)
            }
        }
    }

    // What damage is answered.
    fn answer_to(
        &self,
        family: &Family,
        snap: u64,
        damage: &Damage,
    ) -> Result<DamageAnswer, AllocError>
        ensures { IfOk result (λ a. a ≡ damage_answer self.now.past family.now snap damage.now) }
    {
        if self.scan.is_reading(family, snap) {
            return Ok(DamageAnswer::BeingRead);
        }
        room_answer(
            self.alloc,
            &self.medium,
            self.events.as_slice(),
            family,
            snap,
            damage,
        )
    }
}
