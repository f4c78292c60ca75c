//! What a group begins with.
ghost use Rattle.std.specs.Prelude.{◌≡◌, ◌≤◌, IfOk};
ghost use Rattle.std.specs.List.{AllByRecursion};
ghost use Rattle.pgs_order.specs.Ordered.{IsOsd};
ghost use Rattle.pgs_top.specs.Opening as opening;

use pgs_lines::Call;
use pgs_medium::{CallKind, FailingCall};
use pgs_script::{Declarations, Fail, Osd};
use pgs_shards::OsdDevice;
use pgs_slots::OsdSlots;
use sqlite_items::Items;
use std::alloc::{AllocError, Global};

fn kind_of(call: Call) -> CallKind
    ensures { result ≡ opening.kind_of call }
{
    match call {
        Call::List => CallKind::List,
        Call::Stat => CallKind::Stat,
        Call::Attrs => CallKind::Attrs,
        Call::Read => CallKind::Read,
        Call::Omap => CallKind::Omap,
        Call::Write => CallKind::Write,
    }
}

fn call_of(fail: &Fail) -> FailingCall
    ensures { result ≡ opening.call_of fail.now }
{
    FailingCall {
        kind: kind_of(fail.call),
        number: u64::from(fail.number),
    }
}

// The calls of a device that are declared to fail.
#[tactic(auto, using(crate::proofs::Maps::maps))]
fn calls_of(alloc: Global, fails: &[Fail]) -> Result<Items<FailingCall>, AllocError>
    ensures { IfOk result (λ calls. calls ≡ opening.calls_of fails.now) }
{
    let mut calls = Items::new(alloc);
    for fail in fails {
        let call = call_of(fail);
        calls.push(call)?;
    }
    Ok(calls)
}

// The device by which an OSD stores a group.
fn device_of(
    alloc: Global,
    declared: &Declarations,
    group: u32,
    osd: u32,
) -> Result<OsdDevice, AllocError>
    ensures { IfOk result (λ device. device ≡ opening.device_of declared.now.fails group osd) }
{
    let fails = declared.failing(alloc, group, osd)?;
    let failing = calls_of(alloc, fails.as_slice())?;
    Ok(OsdDevice { osd, failing })
}

/// The devices by which these OSDs store a group.
#[tactic(auto, using(crate::proofs::Maps::maps))]
pub fn devices_of(
    alloc: Global,
    declared: &Declarations,
    group: u32,
    osds: &[u32],
) -> Result<Vec<OsdDevice>, AllocError>
    ensures { IfOk result (λ devices. devices.items ≡ opening.devices_of declared.now.fails group osds.now) }
{
    let mut devices = Vec::new(alloc);
    for osd in osds {
        let device = device_of(alloc, declared, group, *osd)?;
        devices.push(device)?;
    }
    Ok(devices)
}

fn slots_of(osd: &Osd) -> OsdSlots
    requires { osd.now.slots ≤ 8 }
    ensures { result ≡ opening.slots_of osd.now }
{
    OsdSlots {
        osd: osd.osd,
        slots: osd.slots as u8,
    }
}

/// The slots that OSDs are declared with.
#[tactic(auto, using(crate::proofs::Maps::maps, crate::proofs::Openings::few_slots))]
pub fn all_slots(alloc: Global, osds: &[Osd]) -> Result<Vec<OsdSlots>, AllocError>
    requires { AllByRecursion (λ osd. IsOsd osd) osds.now }
    ensures { IfOk result (λ slots. slots.items ≡ opening.all_slots osds.now) }
{
    let mut slots = Vec::new(alloc);
    for osd in osds {
        let one = slots_of(osd);
        slots.push(one)?;
    }
    Ok(slots)
}
