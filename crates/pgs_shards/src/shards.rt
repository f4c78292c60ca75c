ghost use Rattle.std.specs.Prelude.{◌≡◌, ◌≤◌, ◌-◌, ◌∷◌, ◌++◌, length, map, option_map, position, OnOk, OnErr, IfOk, IfSome};
ghost use Rattle.pgs_exchange.specs.Deposits.{deposit_of, read_deposit, as_read};
ghost use Rattle.pgs_shard_history.specs.Feeds.{AreNext, fed};
ghost use Rattle.pgs_shard_history.specs.Stores.{applied};
ghost use Rattle.pgs_shard_history.specs.declared.event.Event.TheVariants as events;
ghost use Rattle.pgs_shard.specs.Scans.{IsHandedInRange};
ghost use Rattle.pgs_shards.specs.Members.{beginning, past_in, with_event};
ghost use Rattle.pgs_shards.specs.Applies.{apply_in, with_applied};
ghost use Rattle.pgs_shards.specs.Damages.{damage_in, with_damage};
ghost use Rattle.pgs_shards.specs.Listings.{list_in, with_listed};
ghost use Rattle.pgs_shards.specs.Scans.{scan_in, with_scanned, hand_in, with_handed};
ghost use Rattle.pgs_shards.specs.Kept.{is_of, seen, AreCalledOn};

use crate::apply_answer::ApplyAnswer;
use crate::list_answer::ListAnswer;
use crate::osd_device::OsdDevice;
use crate::ram_shard;
use pgs_chunk::Ask;
use pgs_copy::Damage;
use pgs_exchange::Deposit;
use pgs_medium::{Item, RamMedium};
use pgs_name::Family;
use pgs_range::Bound;
use pgs_shard::{ScanAnswer, Shard};
use pgs_shard_history::DamageAnswer;
use sqlite_items::Items;
use std::alloc::{AllocError, Global};
use std::marker::Model;

/// The shards of members, each found by its OSD, and seen by their histories, their devices and how many bytes of a copy each reads at
/// a step of a scan.
#[derive(Drop)]
pub struct Shards {
    alloc: Global,
    stride: u32,
    items: Vec<Shard<RamMedium>>,
}

impl Model for Shards {
    ghost use Rattle.pgs_shards.specs.Members.{ShardsState};
    ghost use Rattle.pgs_shards.specs.Kept.{shards_seen, AreOfStride};

    ghost Value = { ShardsState };

    ghost view = { λ s. shards_seen s.stride s.items.items };

    ghost invariant = { λ s. AreOfStride s.stride s.items.items };
}

// Where the shard of an OSD is.
fn place(shards: &[Shard<RamMedium>], osd: u32) -> Option<usize>
    ensures { result ≡ position (is_of osd) shards.now }
{
    shards.iter().position(|shard| shard.osd() == osd)
}

// How many events a shard has.
fn count(shard: &Shard<RamMedium>) -> u64
    ensures { result ≡ length shard.now.past }
{
    shard.events().len() as u64
}

impl Shards {
    /// A shard for each OSD, of which nothing is known yet, over a device that is to fail these calls. Scans read so many bytes of a
    /// copy's data at a step.
    #[tactic(auto, using(crate::proofs::Places::stride_more, crate::proofs::Places::begun_more), unfolding(crate::specs::Kept::shards_seen))]
    pub fn new(alloc: Global, members: &[OsdDevice], stride: u32) -> Result<Shards, AllocError>
        requires { 1 ≤ stride }
        ensures { IfOk result (λ shards. shards ≡ record { stride = stride; all = beginning members.now }) }
    {
        let mut items = Vec::new(alloc);
        for member in members {
            let shard = ram_shard::begin(alloc, member, stride)?;
            items.push(shard)?;
        }
        Ok(Shards {
            alloc,
            stride,
            items,
        })
    }

    /// The shards, in declared order.
    #[tactic(auto, unfolding(crate::specs::Kept::shards_seen))]
    pub fn as_slice(&self) -> &[Shard<RamMedium>]
        ensures { map seen result.now ≡ self.now.all }
    {
        self.items.as_slice()
    }

    /// The number of the item that an OSD applied last: 0 before the first, and for one that is no member.
    #[tactic(auto, using(crate::proofs::Places::past_at, crate::proofs::Places::past_nowhere), unfolding(crate::specs::Kept::shards_seen))]
    pub fn applied(&self, osd: u32) -> u64
        ensures { result ≡ applied (past_in self.now.all osd) }
    {
        match place(self.items.as_slice(), osd) {
            Some(at) => self.items[at].applied(),
            None => 0,
        }
    }

    /// How many events an OSD's history has: none for one that is no member.
    #[tactic(auto, using(crate::proofs::Places::past_at, crate::proofs::Places::past_nowhere), unfolding(crate::specs::Kept::shards_seen))]
    pub fn events(&self, osd: u32) -> u64
        ensures { result ≡ length (past_in self.now.all osd) }
    {
        match place(self.items.as_slice(), osd) {
            Some(at) => count(&self.items[at]),
            None => 0,
        }
    }

    /// Applies the next item of an OSD, if one waits. Where its device fails, the item waits on. One that is no member has none.
    #[tactic(auto, using(crate::proofs::Places::applies, crate::proofs::Places::stride_set))]
    pub fn apply_next(&mut self, osd: u32) -> Result<ApplyAnswer, AllocError>
        ensures answer { IfOk result (λ answer. answer ≡ apply_in self.old.all osd) }
        ensures kept { OnOk result (self.new ≡ record self.old { all = with_applied osd self.old.all }) }
        ensures err { OnErr result (self.new ≡ self.old) }
    {
        match place(self.items.as_slice(), osd) {
            Some(at) => {
                let shard = &mut self.items[at];
                let answer = ram_shard::apply(shard)?;
                Ok(answer)
            }
            None => Ok(ApplyAnswer::NotYet { applied: 0 }),
        }
    }

    /// Gives an OSD the items that it pulled, numbered from one after `from` on, and the ask of a chunk, if there is one.
    #[tactic(auto, using(crate::proofs::Places::feeds, crate::proofs::Places::stride_set))]
    pub fn feed(
        &mut self,
        osd: u32,
        from: u64,
        items: Items<Item>,
        ask: Option<Ask>,
    ) -> Result<(), AllocError>
        requires next { AreNext from items }
        requires from { from ≤ length (fed (past_in self.old.all osd)) }
        ensures kept { OnOk result (self.new ≡ record self.old { all = with_event osd (events.Fed from items ask) self.old.all }) }
        ensures err { OnErr result (self.new ≡ self.old) }
    {
        match place(self.items.as_slice(), osd) {
            Some(at) => {
                let shard = &mut self.items[at];
                ram_shard::feed(shard, from, items, ask)?;
                Ok(())
            }
            None => Ok(()),
        }
    }

    /// Does damage to the copy of an OSD at a snap of a family, unless its copies would then hold too much. Of an OSD that is no member
    /// nothing is kept.
    #[tactic(auto, using(crate::proofs::Places::damages, crate::proofs::Places::stride_set))]
    pub fn damage(
        &mut self,
        osd: u32,
        family: Family,
        snap: u64,
        damage: Damage,
    ) -> Result<DamageAnswer, AllocError>
        ensures answer { IfOk result (λ a. a ≡ damage_in self.old.all osd family snap damage) }
        ensures kept { OnOk result (self.new ≡ record self.old { all = with_damage osd family snap damage self.old.all }) }
        ensures err { OnErr result (self.new ≡ self.old) }
    {
        match place(self.items.as_slice(), osd) {
            Some(at) => {
                let shard = &mut self.items[at];
                let answer = ram_shard::damage(shard, family, snap, damage)?;
                Ok(answer)
            }
            None => {
                drop(damage);
                Ok(DamageAnswer::Damaged)
            }
        }
    }

    /// The positions of an OSD from a bound on, in order, until more than `limit` of at least two families are listed, unless its device
    /// fails. One that is no member has none. Without memory some of the device's calls may have been made.
    #[tactic(auto, using(crate::proofs::Places::lists, crate::proofs::Places::stride_set))]
    pub fn list(&mut self, osd: u32, start: &Bound, limit: u32) -> Result<ListAnswer, AllocError>
        ensures answer { IfOk result (λ answer. answer ≡ list_in limit start.now self.old.all osd) }
        ensures kept { OnOk result (self.new ≡ record self.old { all = with_listed limit start.now osd self.old.all }) }
        ensures err { OnErr result (AreCalledOn osd self.old self.new) }
    {
        match place(self.items.as_slice(), osd) {
            Some(at) => {
                let shard = &mut self.items[at];
                let answer = ram_shard::list(shard, start, limit)?;
                Ok(answer)
            }
            None => Ok(ListAnswer::Listed {
                ids: Items::new(self.alloc),
            }),
        }
    }

    /// Makes one small step of the scan of an OSD's newest ask. One that is no member has none.
    /// Without memory some of its device's calls may have been made.
    #[tactic(auto, using(crate::proofs::Places::scans, crate::proofs::Places::stride_set))]
    pub fn scan(&mut self, osd: u32) -> Result<ScanAnswer, AllocError>
        ensures answer { IfOk result (λ a. a ≡ scan_in self.old.stride self.old.all osd) }
        ensures kept { OnOk result (self.new ≡ record self.old { all = with_scanned self.old.stride osd self.old.all }) }
        ensures err { OnErr result (AreCalledOn osd self.old self.new) }
    {
        match place(self.items.as_slice(), osd) {
            Some(at) => {
                let shard = &mut self.items[at];
                let answer = ram_shard::scan(shard)?;
                Ok(answer)
            }
            None => Ok(ScanAnswer::Idle),
        }
    }

    /// Hands what that scan ended with, once. One that is no member has nothing to hand.
    #[tactic(auto, using(crate::proofs::Places::hands, crate::proofs::Places::stride_set))]
    pub fn hand(&mut self, osd: u32) -> Option<Deposit>
        ensures handed { result ≡ option_map deposit_of (hand_in self.old.all osd) }
        // A map's bytes are decoded as the map.
        ensures again { option_map read_deposit result ≡ option_map as_read (hand_in self.old.all osd) }
        ensures kept { self.new ≡ record self.old { all = with_handed osd self.old.all } }

        // The entries of a map are in order and of its range.
        ensures in_range { IfSome (hand_in self.old.all osd) IsHandedInRange }
    {
        match place(self.items.as_slice(), osd) {
            Some(at) => {
                let shard = &mut self.items[at];
                ram_shard::hand(shard)
            }
            None => None,
        }
    }

    /// How many items of an OSD wait to be applied.
    #[tactic(auto, using(crate::proofs::Places::past_at, crate::proofs::Places::past_nowhere), unfolding(crate::specs::Kept::shards_seen))]
    pub fn waiting(&self, osd: u32) -> u64
        ensures { result ≡ length (fed (past_in self.now.all osd)) - applied (past_in self.now.all osd) }
    {
        match place(self.items.as_slice(), osd) {
            Some(at) => {
                let shard = &self.items[at];
                shard.fed_count() - shard.applied()
            }
            None => 0,
        }
    }
}
