//! Items of one family, and devices of which one call fails.
ghost use Rattle.std.specs.Prelude.{◌≡◌, IfOk};
ghost use Rattle.pgs_store.specs.Stores.{nothing_stored};
ghost use Rattle.pgs_medium.specs.Ram.{device_of};
ghost use Rattle.pgs_shard_history.specs.Feeds.{AreNext};

use pgs_bytes::Bytes;
use pgs_copy::Effect;
use pgs_medium::{CallKind, FailingCall, Item, RamMedium};
use pgs_name::{Family, HEAD};
use sqlite_items::Items;
use std::alloc::{AllocError, Global};

pub fn family(alloc: Global) -> Result<Family, AllocError> {
    let name = Bytes::from_slice(alloc, b"rbd_data.1")?;
    Family::new(Bytes::new(alloc), Bytes::new(alloc), name)
}

fn item(alloc: Global, number: u64, text: &[u8]) -> Result<Item, AllocError>
    ensures { IfOk result (λ item. item.number ≡ number) }
{
    let bytes = Bytes::from_slice(alloc, text)?;
    let mut effects = Items::new(alloc);
    effects.push((HEAD, Effect::Clear))?;
    effects.push((HEAD, Effect::SetData { bytes }))?;
    let family = family(alloc)?;
    Ok(Item {
        number,
        epoch: 1,
        family,
        effects,
    })
}

/// Two items, of which the first makes a head of ten bytes.
pub fn items(alloc: Global) -> Result<Items<Item>, AllocError>
    ensures { IfOk result (λ items. AreNext 0 items) }
{
    let mut items = Items::new(alloc);
    let first = item(alloc, 1, b"0123456789")?;
    items.push(first)?;
    let second = item(alloc, 2, b"abc")?;
    items.push(second)?;
    Ok(items)
}

/// A device of which the call of a kind and a number fails.
pub fn device(alloc: Global, kind: CallKind, number: u64) -> Result<RamMedium, AllocError>
    ensures { IfOk result (λ device. (device_of device).stored ≡ nothing_stored) }
{
    let mut failing = Items::new(alloc);
    failing.push(FailingCall { kind, number })?;
    Ok(RamMedium::new(alloc, failing))
}
