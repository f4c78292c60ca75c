ghost use Rattle.std.specs.Prelude.{◌≡◌, ◌≤◌, None, Some, replicate, length, position, is_none, filter_map, IfOk, OnOk, OnErr};
ghost use Rattle.pgs_slots.specs.declared.limits.TheConstants.{MOST_SLOTS};
ghost use Rattle.pgs_slots.specs.Slots.{first_free, slot_of, holders_of, answer_of, claimed, released};

use crate::claim_answer::ClaimAnswer;
use crate::holder::Holder;
use sqlite_items::Items;
use std::alloc::{AllocError, Global};

/// An OSD and its slots: each is free or held by a scrub.
#[derive(Drop)]
pub struct Row {
    pub osd: u32,
    pub slots: Items<Option<Holder>>,
}

// So many free slots.
fn free_slots(alloc: Global, count: u8) -> Result<Items<Option<Holder>>, AllocError>
    ensures { IfOk result (λ slots. slots ≡ replicate count None) }
{
    let mut slots = Items::new(alloc);
    for _ in 0..count {
        slots.push(None)?;
    }
    Ok(slots)
}

// The first free slot.
fn first_free(slots: &[Option<Holder>]) -> Option<usize>
    ensures { result ≡ first_free slots.now }
{
    slots.iter().position(|slot| slot.is_none())
}

// The first slot that a scrub holds.
fn slot_of(slots: &[Option<Holder>], holder: Holder) -> Option<usize>
    ensures { result ≡ slot_of slots.now holder }
{
    slots.iter().position(|slot| *slot == Some(holder))
}

// Who holds slots, in the order of the slots.
fn holders_of(alloc: Global, slots: &[Option<Holder>]) -> Result<Items<Holder>, AllocError>
    ensures { IfOk result (λ holders. holders ≡ holders_of slots.now) }
{
    let mut holders = Items::new(alloc);
    for slot in slots {
        if let Some(holder) = slot {
            holders.push(*holder)?;
        }
    }
    Ok(holders)
}

impl Row {
    /// An OSD whose slots are all free.
    pub fn new(alloc: Global, osd: u32, slots: u8) -> Result<Row, AllocError>
        ensures { IfOk result (λ row. row ≡ record { osd = osd; slots = replicate slots None }) }
    {
        let slots = free_slots(alloc, slots)?;
        Ok(Row { osd, slots })
    }

    /// Claims the first free slot for a scrub. It takes memory only where none is free.
    pub fn claim(&mut self, alloc: Global, holder: Holder) -> Result<ClaimAnswer, AllocError>
        requires { length self.old.slots ≤ MOST_SLOTS }
        ensures answer { IfOk result (λ answer. answer ≡ answer_of self.old.slots) }
        ensures kept { OnOk result (self.new ≡ record self.old { slots = claimed self.old.slots holder }) }
        ensures err { OnErr result (self.new ≡ self.old) }
        ensures memory { OnErr result (first_free self.old.slots ≡ None) }
    {
        match first_free(self.slots.as_slice()) {
            Some(slot) => {
                self.slots.set(slot, Some(holder));
                let slot = slot as u8;
                Ok(ClaimAnswer::Claimed { slot })
            }
            None => {
                let holders = holders_of(alloc, self.slots.as_slice())?;
                Ok(ClaimAnswer::Denied { holders })
            }
        }
    }

    /// Frees the first slot that a scrub holds.
    pub fn release(&mut self, holder: Holder) -> Option<u8>
        requires { length self.old.slots ≤ MOST_SLOTS }
        ensures answer { result ≡ slot_of self.old.slots holder }
        ensures kept { self.new ≡ record self.old { slots = released self.old.slots holder } }
    {
        let slot = slot_of(self.slots.as_slice(), holder)?;
        self.slots.set(slot, None);
        Some(slot as u8)
    }
}
