use crate::making::{device, family, items};
use pgs_medium::{CallKind, Medium, RamMedium};
use pgs_name::{Family, HEAD};
use pgs_shard::{Applied, ApplyError, Shard};
use std::alloc::{AllocError, Global};
use std::test::Fail;

fn feed<M: Medium>(alloc: Global, shard: &mut Shard<M>) -> Result<(), AllocError> {
    let items = items(alloc)?;
    shard.feed(0, items, None)
}

// A shard with two items, of which the first write fails.
fn shard(alloc: Global) -> Result<Shard<RamMedium>, AllocError> {
    let device = device(alloc, CallKind::Write, 1)?;
    let mut shard = Shard::new(alloc, device, 3, 4);
    feed(alloc, &mut shard)?;
    Ok(shard)
}

// Whether the next item isn't applied, for the device's first fault.
fn fails<M: Medium>(shard: &mut Shard<M>) -> bool {
    let failed = shard.apply_next();
    let faults = shard.medium().faults();
    matches!(&failed, Err(ApplyError::DeviceFault { count: 1 })) && faults == 1
}

// Whether the first item is applied.
fn applies<M: Medium>(shard: &mut Shard<M>) -> bool {
    let applied = shard.apply_next();
    matches!(&applied, Ok(Applied::Applied { number: 1, .. }))
}

fn has_head<M: Medium>(shard: &Shard<M>, family: &Family) -> bool {
    shard.medium().copy(family, HEAD).is_some()
}

#[test]
fn a_failed_write_leaves_the_item_waiting(rt: HostRuntime) -> Result<(), Fail> {
    let mut shard = shard(rt.alloc())?;
    let family = family(rt.alloc())?;
    assert!(rt; fails(&mut shard));
    assert_eq!(rt; shard.applied(), 0);
    assert!(rt; !has_head(&shard, &family));
    assert!(rt; applies(&mut shard));
    assert!(rt; has_head(&shard, &family));
    Ok(())
}
