ghost use Rattle.std.specs.Prelude.{◌≡◌, IfOk};

use crate::chosen::Chosen;
use crate::shard_finding::ShardFinding;
use pgs_find::ObjectErrors;
use pgs_name::ObjectId;
use sqlite_items::Items;
use std::alloc::{AllocError, Global};

/// What was found of the copies of one position.
#[derive(Drop)]
pub struct Finding {
    pub id: ObjectId,
    /// The version of the chunk that the copies were compared in: a number of the group's log.
    pub version: u64,
    /// The errors of the chosen copy and the others among each other.
    pub errors: ObjectErrors,
    /// What was found of each acting OSD's copy, the primary's first.
    pub shards: Items<ShardFinding>,
    /// The copy that the others were held against, if one could be chosen.
    pub chosen: Option<Chosen>,
}

impl Finding {
    /// The same finding. It isn't `Clone`, whose call is passed no allocator, and a list has none to show.
    pub fn copied(&self, alloc: Global) -> Result<Finding, AllocError>
        ensures { IfOk result (λ finding. finding ≡ self.now) }
    {
        let id = self.id.clone()?;
        let shards = Items::from_slice(alloc, self.shards.as_slice())?;
        let chosen = copied_choice(&self.chosen)?;
        Ok(Finding {
            id,
            version: self.version,
            errors: self.errors,
            shards,
            chosen,
        })
    }
}

fn copied_choice(chosen: &Option<Chosen>) -> Result<Option<Chosen>, AllocError>
    ensures { IfOk result (λ copy. copy ≡ chosen.now) }
{
    match chosen {
        Some(chosen) => Ok(Some(chosen.clone()?)),
        None => Ok(None),
    }
}
