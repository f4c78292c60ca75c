//! The histories of a script.
ghost use Rattle.std.specs.Prelude.{◌≡◌, ◌≤◌, map, IfOk};
ghost use Rattle.std.specs.List.{AllByRecursion};
ghost use Rattle.pgs_order.specs.Ordered.{IsOrdered, IsOsd};
ghost use Rattle.pgs_world.specs.Opening.{IsOpening};
ghost use Rattle.pgs_world.specs.Pool.{AreApart};
ghost use Rattle.pgs_world.specs.Sound.{IsSound, AreScrubbed};
ghost use Rattle.pgs_top.specs.Histories as histories;
ghost use Rattle.pgs_top.specs.Histories.{IsFit, OfPool, OfWorld};

use crate::histories::Histories;
use crate::opening::{all_slots, devices_of};
use pgs_chunk::Settings;
use pgs_history::Made;
use pgs_lines::Step;
use pgs_placement::PlacementGroup;
use pgs_script::{Declarations, Group, StepScript};
use pgs_world::World;
use sqlite_items::Items;
use std::alloc::{AllocError, Global};

/// Nothing happened. It takes no memory.
pub fn nothing(alloc: Global) -> Histories
    ensures { result ≡ histories.no_histories }
{
    Histories {
        declared: Declarations::new(alloc),
        world: None,
    }
}

// What a declared group is made with.
fn made_of(alloc: Global, settings: Settings, group: &Group) -> Result<Made, AllocError>
    ensures { IfOk result (λ made. made ≡ histories.made_of settings group.now) }
{
    let members = Items::from_slice(alloc, group.members.as_slice())?;
    Ok(Made {
        number: group.group,
        epoch: group.epoch,
        members,
        limits: settings.limits,
    })
}

// A declared group before the first step.
fn opening_of(
    alloc: Global,
    settings: Settings,
    declared: &Declarations,
    group: &Group,
) -> Result<PlacementGroup, AllocError>
    requires stride { 1 ≤ settings.stride }
    ensures { IfOk result (λ opening. opening ≡ histories.opening_of settings declared.now group.now) }
{
    let made = made_of(alloc, settings, group)?;
    let devices = devices_of(alloc, declared, group.group, group.members.as_slice())?;
    PlacementGroup::new(alloc, made, devices.as_slice(), settings.stride)
}

// All of these declared groups.
#[tactic(auto, using(crate::proofs::Maps::maps))]
fn openings_of(
    alloc: Global,
    settings: Settings,
    declared: &Declarations,
    groups: &[Group],
) -> Result<Vec<PlacementGroup>, AllocError>
    requires stride { 1 ≤ settings.stride }
    ensures { IfOk result (λ openings. openings.items ≡ map (histories.opening_of settings declared.now) groups.now) }
{
    let mut openings = Vec::new(alloc);
    for group in groups {
        let opening = opening_of(alloc, settings, declared, group)?;
        openings.push(opening)?;
    }
    Ok(openings)
}

// The declared pool before the first step.
#[tactic(auto, using(crate::proofs::Openings::opens))]
fn pool_opening(
    alloc: Global,
    settings: Settings,
    declared: &Declarations,
    bits: u32,
) -> Result<World, AllocError>
    requires osds { AllByRecursion (λ osd. IsOsd osd) declared.now.osds }
    requires few { bits ≤ 3 }
    requires groups { AllByRecursion (λ group. IsOpening group) (histories.groups_of settings declared.now) }
    requires apart { AreApart (histories.mades_of settings declared.now) }
    requires stride { 1 ≤ settings.stride }
    ensures world { IfOk result (λ w. w ≡ histories.pool_opening bits settings declared.now) }
    ensures sound { IfOk result (λ w. IsSound w) }
{
    let groups = openings_of(alloc, settings, declared, declared.groups.as_slice())?;
    let slots = all_slots(alloc, declared.osds.as_slice())?;
    World::new(alloc, bits, groups, slots.as_slice())
}

// The world of a declared pool after all steps.
#[tactic(auto, using(crate::proofs::Openings::opening_named))]
fn pool_world(
    alloc: Global,
    settings: Settings,
    declared: &Declarations,
    bits: u32,
    script: &[Step],
) -> Result<World, AllocError>
    requires osds { AllByRecursion (λ osd. IsOsd osd) declared.now.osds }
    requires fit { IsFit settings declared.now script.now bits }
    requires stride { 1 ≤ settings.stride }
    ensures world { IfOk result (λ w. w ≡ histories.pool_world bits settings declared.now script.now) }
    ensures sound { IfOk result (λ w. IsSound w) }
    ensures scrubbed { IfOk result (λ w. AreScrubbed w) }
{
    let mut world = pool_opening(alloc, settings, declared, bits)?;
    world.run(script)?;
    Ok(world)
}

// The same, if a pool is declared.
fn world_of(
    alloc: Global,
    settings: Settings,
    declared: &Declarations,
    script: &[Step],
) -> Result<Option<World>, AllocError>
    requires osds { AllByRecursion (λ osd. IsOsd osd) declared.now.osds }
    requires fit { OfPool (IsFit settings declared.now script.now) declared.now.bits }
    requires stride { 1 ≤ settings.stride }
    ensures world { IfOk result (λ w. w ≡ histories.world_of declared.now.bits settings declared.now script.now) }
    ensures sound { IfOk result (λ w. OfWorld IsSound w) }
    ensures scrubbed { IfOk result (λ w. OfWorld AreScrubbed w) }
{
    let Some(bits) = declared.bits else {
        return Ok(None);
    };
    let world = pool_world(alloc, settings, declared, bits, script)?;
    Ok(Some(world))
}

/// What happens in a script.
#[tactic(auto, using(crate::proofs::Worlds::each_osd))]
pub fn keep(alloc: Global, settings: Settings, script: StepScript) -> Result<Histories, AllocError>
    requires ordered { IsOrdered script }
    requires stride { 1 ≤ settings.stride }
    ensures kept { IfOk result (λ kept. kept ≡ histories.histories_of settings script) }
    ensures sound { IfOk result (λ kept. OfWorld IsSound kept.world) }
    ensures scrubbed { IfOk result (λ kept. OfWorld AreScrubbed kept.world) }
{
    let world = world_of(alloc, settings, &script.declared, script.steps.as_slice())?;
    Ok(Histories {
        declared: script.declared,
        world,
    })
}
