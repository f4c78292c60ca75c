//! One shard, over a device in memory.
ghost use Rattle.std.specs.Prelude.{◌≡◌, ◌≤◌, length, option_map, OnOk, OnErr, IfOk, IfSome};
ghost use Rattle.pgs_exchange.specs.Deposits.{deposit_of, read_deposit, as_read};
ghost use Rattle.pgs_shard_history.specs.Feeds.{AreNext, fed};
ghost use Rattle.pgs_shard_history.specs.Held.{damage_answer};
ghost use Rattle.pgs_shard_history.specs.declared.event.Event.TheVariants as events;
ghost use Rattle.pgs_shard.specs.Scans.{IsHandedInRange};
ghost use Rattle.pgs_shards.specs.Members.{begun, after_event};
ghost use Rattle.pgs_shards.specs.Applies.{apply_answer, after_apply};
ghost use Rattle.pgs_shards.specs.Damages.{after_damage};
ghost use Rattle.pgs_shards.specs.Listings.{list_answer, after_list};
ghost use Rattle.pgs_shards.specs.Scans.{scan_answer, after_scan, hand_answer, after_hand};
ghost use Rattle.pgs_shards.specs.Kept.{seen, apply_said, list_said, IsMemberCalledOn};

use crate::apply_answer::ApplyAnswer;
use crate::list_answer::ListAnswer;
use crate::osd_device::OsdDevice;
use pgs_chunk::Ask;
use pgs_copy::Damage;
use pgs_exchange::Deposit;
use pgs_medium::{Item, RamMedium};
use pgs_name::{Family, ObjectId};
use pgs_range::Bound;
use pgs_shard::{Applied, ApplyError, ListError, ScanAnswer, Shard};
use pgs_shard_history::DamageAnswer;
use sqlite_items::Items;
use std::alloc::{AllocError, Global};

/// A shard of an OSD, which was fed nothing yet. Its scans read so many bytes of a copy's data at a step.
pub fn begin(alloc: Global, device: &OsdDevice, stride: u32) -> Result<Shard<RamMedium>, AllocError>
    requires { 1 ≤ stride }
    ensures begun { IfOk result (λ shard. seen shard ≡ begun device.now) }
    ensures stride { IfOk result (λ shard. shard.stride ≡ stride) }
{
    let failing = Items::from_slice(alloc, device.failing.as_slice())?;
    let medium = RamMedium::new(alloc, failing);
    Ok(Shard::new(alloc, medium, device.osd, stride))
}

/// Takes items, numbered from one after `from` on, and an ask, if there is one.
pub fn feed(
    shard: &mut Shard<RamMedium>,
    from: u64,
    items: Items<Item>,
    ask: Option<Ask>,
) -> Result<(), AllocError>
    requires next { AreNext from items }
    requires from { from ≤ length (fed shard.old.past) }
    ensures stride { shard.new.stride ≡ shard.old.stride }
    ensures kept { OnOk result (seen shard.new ≡ after_event (events.Fed from items ask) (seen shard.old)) }
    ensures err { OnErr result (seen shard.new ≡ seen shard.old) }
{
    shard.feed(from, items, ask)
}

// What an answer of a shard says, if memory was there.
fn applied_said(answer: Result<Applied, ApplyError>) -> Option<ApplyAnswer>
    ensures { result ≡ apply_said answer }
{
    match answer {
        Ok(Applied::NotYet { applied }) => Some(ApplyAnswer::NotYet { applied }),
        Ok(Applied::Applied { number, drops }) => Some(ApplyAnswer::Applied { number, drops }),
        Err(ApplyError::DeviceFault { count }) => Some(ApplyAnswer::DeviceFault { count }),
        Err(ApplyError::Memory) => None,
    }
}

/// Applies the next item, if one waits. Where the device fails, it waits on.
#[tactic(auto, using(crate::proofs::Applies::applies))]
pub fn apply(shard: &mut Shard<RamMedium>) -> Result<ApplyAnswer, AllocError>
    ensures answer { IfOk result (λ answer. answer ≡ apply_answer (seen shard.old)) }
    ensures stride { shard.new.stride ≡ shard.old.stride }
    ensures kept { OnOk result (seen shard.new ≡ after_apply (seen shard.old)) }
    ensures err { OnErr result (seen shard.new ≡ seen shard.old) }
{
    match applied_said(shard.apply_next()) {
        Some(answer) => Ok(answer),
        None => Err(AllocError),
    }
}

// What an answer of a shard says, if memory was there.
fn listed_said(answer: Result<Items<ObjectId>, ListError>) -> Option<ListAnswer>
    ensures { result ≡ list_said answer }
{
    match answer {
        Ok(ids) => Some(ListAnswer::Listed { ids }),
        Err(ListError::ListFault { count }) => Some(ListAnswer::Fault { count }),
        Err(ListError::Memory) => None,
    }
}

/// The positions from a bound on, until they are full, unless the device fails. Without memory some of its calls may have been made.
#[tactic(auto, using(crate::proofs::Lists::lists))]
pub fn list(
    shard: &mut Shard<RamMedium>,
    start: &Bound,
    limit: u32,
) -> Result<ListAnswer, AllocError>
    ensures answer { IfOk result (λ answer. answer ≡ list_answer limit start.now (seen shard.old)) }
    ensures stride { shard.new.stride ≡ shard.old.stride }
    ensures kept { OnOk result (seen shard.new ≡ after_list limit start.now (seen shard.old)) }
    ensures err { OnErr result (IsMemberCalledOn (seen shard.old) (seen shard.new)) }
{
    match listed_said(shard.list(start, limit)) {
        Some(answer) => Ok(answer),
        None => Err(AllocError),
    }
}

/// Does damage to the copy at a snap of a family, unless the copies would then hold too much.
#[tactic(auto, using(crate::proofs::Damages::damages))]
pub fn damage(
    shard: &mut Shard<RamMedium>,
    family: Family,
    snap: u64,
    damage: Damage,
) -> Result<DamageAnswer, AllocError>
    ensures answer { IfOk result (λ answer. answer ≡ damage_answer shard.old.past family snap damage) }
    ensures stride { shard.new.stride ≡ shard.old.stride }
    ensures kept { OnOk result (seen shard.new ≡ after_damage family snap damage (seen shard.old)) }
    ensures err { OnErr result (seen shard.new ≡ seen shard.old) }
{
    shard.damage(family, snap, damage)
}

/// Makes one small step of the scan of the newest ask. Without memory some of the device's calls may have been made.
#[tactic(auto, using(crate::proofs::Told::scans))]
pub fn scan(shard: &mut Shard<RamMedium>) -> Result<ScanAnswer, AllocError>
    ensures answer { IfOk result (λ answer. answer ≡ scan_answer shard.old.stride (seen shard.old)) }
    ensures stride { shard.new.stride ≡ shard.old.stride }
    ensures kept { OnOk result (seen shard.new ≡ after_scan shard.old.stride (seen shard.old)) }
    ensures err { OnErr result (IsMemberCalledOn (seen shard.old) (seen shard.new)) }
{
    // Its history is legal.
    let _events = shard.events();
    shard.scan()
}

/// Hands what that scan ended with, once.
pub fn hand(shard: &mut Shard<RamMedium>) -> Option<Deposit>
    ensures handed { result ≡ option_map deposit_of (hand_answer (seen shard.old)) }
    ensures again { option_map read_deposit result ≡ option_map as_read (hand_answer (seen shard.old)) }
    ensures stride { shard.new.stride ≡ shard.old.stride }
    ensures kept { seen shard.new ≡ after_hand (seen shard.old) }

    // The entries of a map are in order and of its range.
    ensures in_range { IfSome (hand_answer (seen shard.old)) IsHandedInRange }
{
    shard.hand()
}
