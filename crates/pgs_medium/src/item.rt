ghost use Rattle.std.specs.Prelude.{◌≡◌, IfOk};

use pgs_copy::Effect;
use pgs_name::Family;
use sqlite_items::Items;
use std::alloc::{AllocError, Global};

/// An item of a group's log: what every member does to its copies of one family.
#[derive(Drop)]
pub struct Item {
    /// Its number in the log, from 1.
    pub number: u64,
    /// The epoch in which it was accepted. With the number it is the item's version.
    pub epoch: u32,
    /// The family.
    pub family: Family,
    /// What is done, each to the copy at one snap, in order.
    pub effects: Items<(u64, Effect)>,
}

impl Item {
    /// The same item. It isn't `Clone`, whose call is passed no allocator, and a list has none to show.
    pub fn copied(&self, alloc: Global) -> Result<Item, AllocError>
        ensures { IfOk result (λ item. item ≡ self.now) }
    {
        let family = self.family.clone()?;
        let effects = copied_effects(alloc, self.effects.as_slice())?;
        Ok(Item {
            number: self.number,
            epoch: self.epoch,
            family,
            effects,
        })
    }
}

fn copied_effects(
    alloc: Global,
    effects: &[(u64, Effect)],
) -> Result<Items<(u64, Effect)>, AllocError>
    ensures { IfOk result (λ copy. copy ≡ effects.now) }
{
    let mut copy = Items::new(alloc);
    for (snap, effect) in effects {
        let effect = effect.clone()?;
        copy.push((*snap, effect))?;
    }
    Ok(copy)
}
