use crate::tests::group::making::{devices, family};
use pgs_copy::Damage;
use pgs_medium::Item;
use pgs_name::HEAD;
use pgs_shards::Shards;
use sqlite_items::Items;
use std::alloc::{AllocError, Global};
use std::test::Fail;

fn begun(alloc: Global) -> Result<Shards, AllocError> {
    let devices = devices(alloc)?;
    Shards::new(alloc, devices.as_slice(), 16)
}

// The first item, for one OSD: how many items waited, which ones are applied, and how many events that OSD has.
fn fed(alloc: Global) -> Result<(u64, u64, u64, u64), AllocError> {
    let mut shards = begun(alloc)?;
    let item = Item {
        number: 1,
        epoch: 4,
        family: family(alloc)?,
        effects: Items::new(alloc),
    };
    let mut items = Items::new(alloc);
    items.push(item)?;
    shards.feed(0, 0, items, None)?;
    let waiting = shards.waiting(0);
    shards.apply_next(0)?;
    Ok((
        waiting,
        shards.applied(0),
        shards.applied(2),
        shards.events(0),
    ))
}

#[test]
fn an_item_of_one_member(rt: HostRuntime) -> Result<(), Fail> {
    assert_eq!(rt; fed(rt.alloc())?, (1, 1, 0, 2));
    Ok(())
}

fn damaged(alloc: Global) -> Result<usize, AllocError> {
    let mut shards = begun(alloc)?;
    let family = family(alloc)?;
    shards.damage(2, family, HEAD, Damage::Flip { at: 0, xor: 1 })?;
    Ok(shards.as_slice().len())
}

#[test]
fn damage_of_a_copy_that_is_not_there(rt: HostRuntime) -> Result<(), Fail> {
    assert_eq!(rt; damaged(rt.alloc())?, 2);
    Ok(())
}
