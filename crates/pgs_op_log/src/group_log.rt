ghost use Rattle.std.specs.Prelude.{◌≡◌, ◌+◌, ◌<◌, ◌≤◌, ◌^◌, [], ◌∷◌, IfOk, OnOk, OnErr, IfSome, None, length, reverse, filter};
ghost use Rattle.indexmap.specs.IndexMap.{get, spare};
ghost use Rattle.pgs_op.specs.declared.limits.TheConstants.{LOG_MAX};
ghost use Rattle.pgs_op_log.specs.Logs.{Log, AreNumbered, AreAlike, IsAppended, same_id, version_in, version_of_item, with_id, newer, is_above, newest_in, greatest_in};
ghost use Rattle.pgs_op_log.specs.Kept.{log_of};

use crate::copies::copies;
use crate::log_error::LogError;
use crate::newest::newest;
use crate::requests;
use crate::tails::tail;
use indexmap::IndexMap;
use pgs_medium::Item;
use pgs_op::LOG_MAX;
use pgs_range::FamilyRange;
use pgs_request::{ReqId, Version};
use sqlite_items::Items;
use std::alloc::{AllocError, Global};
use std::marker::Model;

/// The items of a group, the oldest first. Contracts see them newest first.
#[derive(Drop)]
pub struct GroupLog {
    items: Vec<Item>,
    ids: IndexMap<ReqId, Version>,
    bytes: u64,
}

impl Model for GroupLog {
    ghost use Rattle.pgs_op_log.specs.Logs.{Log};
    ghost use Rattle.pgs_op_log.specs.Kept.{log_of, IsKept};

    ghost Value = { Log };

    ghost view = { log_of };

    ghost invariant = { IsKept };
}

impl GroupLog {
    /// A log with no item. It takes no memory.
    pub fn new(alloc: Global) -> GroupLog
        ensures items { result.items ≡ [] }
        ensures ids { result.ids ≡ [] }
        ensures bytes { result.bytes ≡ 0 }
    {
        GroupLog {
            items: Vec::new(alloc),
            ids: IndexMap::new(alloc),
            bytes: 0,
        }
    }

    /// Makes room for one item, so that the next `append` takes no memory.
    pub fn reserve(&mut self) -> Result<(), AllocError>
        ensures ok { OnOk result (0 < self.new.room) }
        ensures full { OnErr result (self.old.room ≡ 0) }
        ensures kept { AreAlike self.old self.new }
        ensures room { self.old.room ≤ self.new.room }
    {
        self.items.reserve(1)?;
        self.ids.reserve(1)?;
        Ok(())
    }

    /// Appends an item, of the request with this id where it is a write's. It counts so many bytes.
    pub fn append(&mut self, item: Item, id: Option<ReqId>, bytes: u64) -> Result<(), LogError>
        requires next { item.number ≡ length self.old.items + 1 }
        requires fresh { IfSome id (λ i. version_in self.old.ids i ≡ None) }
        requires small { bytes < 2 ^ 63 }
        ensures answer { IsAppended result self.old (self.old.bytes + bytes) }
        ensures items { OnOk result (self.new.items ≡ item ∷ self.old.items) }
        ensures ids { OnOk result (self.new.ids ≡ with_id id (version_of_item item) self.old.ids) }
        ensures bytes { OnOk result (self.new.bytes ≡ self.old.bytes + bytes) }
        ensures room { self.old.room ≤ self.new.room + 1 }
        ensures err { OnErr result (AreAlike self.old self.new) }
    {
        let bytes = self.bytes + bytes;
        if bytes > LOG_MAX {
            return Err(LogError::LogFull { bytes });
        }
        if self.reserve().is_err() {
            return Err(LogError::Memory);
        }
        let version = Version {
            epoch: item.epoch,
            number: item.number,
        };
        requests::note(&mut self.ids, id, version);
        self.items.push_reserved(item);
        self.bytes = bytes;
        Ok(())
    }

    /// The version of the item that a request made.
    pub fn version_of(&self, id: ReqId) -> Option<Version>
        ensures { result ≡ version_in self.now.ids id }
    {
        self.ids.get(&id).copied()
    }

    /// How many items there are, which is the newest's number.
    pub fn len(&self) -> u64
        ensures len { result ≡ length self.now.items }
        ensures small { result < 2 ^ 63 }
        ensures numbered { AreNumbered self.now.items }
    {
        self.items.len() as u64
    }

    /// How many bytes the log counts.
    pub fn bytes(&self) -> u64
        ensures bytes { result ≡ self.now.bytes }
        ensures within { result ≤ LOG_MAX }
    {
        self.bytes
    }

    /// Copies of the items with higher numbers than `from`, the oldest first.
    #[tactic(auto, using(crate::proofs::Numbered::newer_is))]
    pub fn items_after(&self, alloc: Global, from: u64) -> Result<Items<Item>, AllocError>
        ensures newer { IfOk result (λ items. items ≡ reverse (newer from self.now.items)) }
        ensures above { IfOk result (λ items. items ≡ reverse (filter (is_above from) self.now.items)) }
    {
        copies(alloc, tail(&self.items, from))
    }

    /// The number of the newest item of a family in the range, and 0 where there is none.
    #[tactic(auto, using(crate::proofs::Numbered::newest_is))]
    pub fn newest_in(&self, range: &FamilyRange) -> u64
        ensures newest { result ≡ newest_in range.now self.now.items }
        ensures greatest { result ≡ greatest_in range.now self.now.items }
    {
        newest(&self.items, range)
    }
}
