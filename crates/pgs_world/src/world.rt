ghost use Rattle.std.specs.Prelude.{◌≡◌, ◌≤◌, ◌==◌, Some, None, map, position, reverse, IsTrue, IfOk, OnOk};
ghost use Rattle.std.specs.List.{list_all, AllByRecursion};
ghost use Rattle.pgs_lines.specs.declared.step.Step.TheVariants as line_steps;
ghost use Rattle.pgs_slots.specs.Rows.{is_sized, free_rows};
ghost use Rattle.pgs_placement.specs.Naming.{family_of as family_named};
ghost use Rattle.pgs_placement.specs.Sound.{IsSound as IsSoundGroup};
ghost use Rattle.pgs_placement.specs.Counts.{IsNamedStep as IsNamedIn};
ghost use Rattle.pgs_placement.specs.Steps.{after_step as placement_after};
ghost use Rattle.pgs_world.specs.State.{mades, opening, own};
ghost use Rattle.pgs_world.specs.Opening.{IsOpening};
ghost use Rattle.pgs_world.specs.Pool as pool;
ghost use Rattle.pgs_world.specs.Steps as steps;
ghost use Rattle.pgs_world.specs.Named.{IsNamedOf, IsNamedStep, AreNamed};
ghost use Rattle.pgs_world.specs.Sound.{IsSound, AreScrubbed};

use pgs_done::Done;
use pgs_lines::{Basic, Object, Step};
use pgs_placement::{PlacementGroup, family_of};
use pgs_queue::ScrubQueue;
use pgs_slots::{OsdSlots, SlotList};
use std::alloc::{AllocError, Global};
use std::marker::Model;

mod jobs;

/// The groups of a pool with the shards of their members, the slots of all OSDs, the jobs that wait, and what was done.
#[derive(Drop)]
pub struct World {
    alloc: Global,
    bits: u32,
    groups: Vec<PlacementGroup>,
    slots: SlotList,
    queue: ScrubQueue,
    done: Vec<Done>,
}

impl Model for World {
    ghost use Rattle.std.specs.Prelude.{map, reverse};
    ghost use Rattle.pgs_world.specs.State.{WorldState, own};

    ghost Value = { WorldState };

    ghost view = { λ w. record {
      bits = w.bits;
      groups = map own w.groups.items;
      slots = w.slots;
      jobs = w.queue;
      done = reverse w.done.items;
    } };
}

// Where the group of a number is.
fn place(groups: &[PlacementGroup], number: u32) -> Option<usize>
    ensures { result ≡ position (λ group. group.made.number == number) groups.now }
{
    groups.iter().position(|group| group.number() == number)
}

// A group makes a step, with the slots and with what was done.
fn step_of(
    group: &mut PlacementGroup,
    slots: &mut SlotList,
    done: &mut Vec<Done>,
    step: &Step,
) -> Result<(), AllocError>
    requires sound { IsSoundGroup (record group.old { slots = slots.old; done = reverse done.old.items }) }
    requires named { IsNamedIn group.old.made step.now }
    ensures group { OnOk result (own group.new ≡ own (placement_after (record group.old { slots = slots.old; done = reverse done.old.items }) step.now)) }
    ensures slots { OnOk result (slots.new ≡ (placement_after (record group.old { slots = slots.old; done = reverse done.old.items }) step.now).slots) }
    ensures done { OnOk result (reverse done.new.items ≡ (placement_after (record group.old { slots = slots.old; done = reverse done.old.items }) step.now).done) }
{
    group.exchange(slots, done);
    let result = group.step(step);
    group.exchange(slots, done);
    result
}

// The group of an object in a pool of 2^bits groups: it is found by the low bits of a hash.
fn number_of(bits: u32, object: &Object) -> Result<u32, AllocError>
    requires { bits ≤ 3 }
    ensures { IfOk result (λ number. number ≡ pool.number_of bits (family_named object.now)) }
{
    let family = family_of(object)?;
    Ok(family.hash() % (1 << bits))
}

// The group that a single step is one of.
fn basic_group(bits: u32, basic: &Basic) -> Result<Option<u32>, AllocError>
    requires { bits ≤ 3 }
    ensures { IfOk result (λ group. group ≡ pool.basic_group bits basic.now) }
{
    match basic {
        Basic::Write { object, .. } => {
            let number = number_of(bits, object)?;
            Ok(Some(number))
        }
        Basic::Collect { group, .. }
        | Basic::Pull { group, .. }
        | Basic::Apply { group, .. }
        | Basic::Tell { group, .. }
        | Basic::Damage { group, .. }
        | Basic::Begin { group, .. }
        | Basic::Open { group }
        | Basic::Scan { group, .. }
        | Basic::Take { group, .. }
        | Basic::Close { group }
        | Basic::Claim { group }
        | Basic::Release { group, .. }
        | Basic::Interval { group, .. } => Ok(Some(*group)),
        Basic::Job { .. } | Basic::Unjob { .. } | Basic::Pick { .. } => Ok(None),
    }
}

// The group that a step is one of.
fn step_group(bits: u32, step: &Step) -> Result<Option<u32>, AllocError>
    requires { bits ≤ 3 }
    ensures { IfOk result (λ group. group ≡ pool.step_group bits step.now) }
{
    match step {
        Step::Basic { basic } => basic_group(bits, basic),
        Step::Settle { group } | Step::Sweep { group, .. } => Ok(Some(*group)),
        Step::ListObj { group } | Step::ListSnap { group } => Ok(Some(*group)),
    }
}

impl World {
    /// A pool of 2^bits groups before the first step. The slots are those of all OSDs.
    #[tactic(auto, using(crate::proofs::Openings::opened_sound))]
    pub fn new(
        alloc: Global,
        bits: u32,
        groups: Vec<PlacementGroup>,
        slots: &[OsdSlots],
    ) -> Result<World, AllocError>
        requires few { bits ≤ 3 }
        requires groups { AllByRecursion (λ group. IsOpening group) groups.items }
        requires apart { pool.AreApart (mades (map own groups.items)) }
        requires sized { IsTrue (list_all is_sized slots.now) }
        ensures world { IfOk result (λ w. w ≡ opening bits (map own groups.items) (free_rows slots.now)) }
        ensures sound { IfOk result (λ w. IsSound w) }
    {
        let world = World::begin(alloc, bits, groups, slots)?;
        Ok(world)
    }

    fn begin(
        alloc: Global,
        bits: u32,
        groups: Vec<PlacementGroup>,
        slots: &[OsdSlots],
    ) -> Result<World, AllocError>
        requires sized { IsTrue (list_all is_sized slots.now) }
        ensures { IfOk result (λ w. w ≡ opening bits (map own groups.items) (free_rows slots.now)) }
    {
        let slots = SlotList::new(alloc, slots)?;
        Ok(World {
            alloc,
            bits,
            groups,
            slots,
            queue: ScrubQueue::new(alloc),
            done: Vec::new(alloc),
        })
    }

    /// All that was done, the oldest first.
    pub fn done(&self) -> &[Done]
        ensures { reverse result.now ≡ self.now.done }
    {
        self.done.as_slice()
    }

    // The group of a number makes a step.
    fn step_in(&mut self, number: u32, step: &Step) -> Result<(), AllocError>
        requires sound { IsSound self.old }
        requires named { IsNamedOf (Some number) (mades self.old.groups) step.now }
        ensures { OnOk result (self.new ≡ steps.stepped_in number self.old step.now) }
    {
        let Some(at) = place(self.groups.as_slice(), number) else {
            unreachable!()
        };
        let group = &mut self.groups[at];
        step_of(group, &mut self.slots, &mut self.done, step)?;
        Ok(())
    }

    // What becomes of a job.
    fn do_job(&mut self, basic: &Basic) -> Result<(), AllocError>
        requires job { pool.basic_group self.old.bits basic.now ≡ None }
        ensures { OnOk result (self.new ≡ steps.queued self.old (line_steps.Basic basic.now)) }
    {
        match basic {
            Basic::Job {
                group,
                kind,
                rank,
                moment,
            } => self.queue(*group, *kind, *rank, *moment),
            Basic::Unjob { group } => self.unqueue(*group),
            Basic::Pick { moment } => self.pick(*moment),
            _ => unreachable!(),
        }
    }

    // A step of the queue.
    fn step_out(&mut self, step: &Step) -> Result<(), AllocError>
        requires job { pool.step_group self.old.bits step.now ≡ None }
        ensures { OnOk result (self.new ≡ steps.queued self.old step.now) }
    {
        match step {
            Step::Basic { basic } => self.do_job(basic),
            Step::Settle { .. }
            | Step::Sweep { .. }
            | Step::ListObj { .. }
            | Step::ListSnap { .. } => unreachable!(),
        }
    }

    fn do_step(&mut self, step: &Step) -> Result<(), AllocError>
        requires sound { IsSound self.old }
        requires named { IsNamedStep self.old.bits (mades self.old.groups) step.now }
        ensures { OnOk result (self.new ≡ steps.after_step self.old step.now) }
    {
        match step_group(self.bits, step)? {
            Some(number) => self.step_in(number, step),
            None => self.step_out(step),
        }
    }

    /// Does a step of a script, and keeps it with its answer. Where memory runs out a part of it may be done.
    #[tactic(auto, using(crate::proofs::Sound::sound_step))]
    pub fn step(&mut self, step: &Step) -> Result<(), AllocError>
        requires sound { IsSound self.old }
        requires named { IsNamedStep self.old.bits (mades self.old.groups) step.now }
        ensures after { OnOk result (self.new ≡ steps.after_step self.old step.now) }
        ensures sound { OnOk result (IsSound self.new) }
    {
        self.do_step(step)?;
        Ok(())
    }

    /// Does the steps of a script, in order. Where memory runs out some of them are done.
    #[tactic(auto, using(crate::proofs::Runs::runs))]
    pub fn run(&mut self, script: &[Step]) -> Result<(), AllocError>
        requires sound { IsSound self.old }
        requires named { AreNamed self.old.bits (mades self.old.groups) script.now }
        ensures after { OnOk result (self.new ≡ steps.after_steps self.old script.now) }
        ensures sound { OnOk result (IsSound self.new) }
        ensures scrubbed { OnOk result (AreScrubbed self.new) }
    {
        for step in script {
            self.step(step)?;
        }
        Ok(())
    }
}
