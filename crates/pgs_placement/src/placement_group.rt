ghost use Rattle.std.specs.Prelude.{◌≡◌, ◌≤◌, ℕ, true, false, [], reverse, option_map, IfOk, OnOk};
ghost use Rattle.pgs_history.specs.Acting.{IsActing};
ghost use Rattle.pgs_history.specs.Parked.{is_admitting};
ghost use Rattle.pgs_lines.specs.Contexts.{meant};
ghost use Rattle.pgs_shards.specs.Applies.{apply_in};
ghost use Rattle.pgs_shards.specs.Damages.{damage_in, with_damage};
ghost use Rattle.pgs_shards.specs.Scans.{scan_in};
ghost use Rattle.pgs_placement.specs.State.{opening};
ghost use Rattle.pgs_placement.specs.Naming as naming;
ghost use Rattle.pgs_placement.specs.Basics as basics;
ghost use Rattle.pgs_placement.specs.Repeats.{MOST};
ghost use Rattle.pgs_placement.specs.Steps as steps;
ghost use Rattle.pgs_placement.specs.Counts.{is_member, IsNamed, IsNamedStep};
ghost use Rattle.pgs_placement.specs.Sound.{IsSound};

use crate::naming::{damage_of, family_of, snap_of, write_of};
use crate::saying::{apply_said, collect_said, damage_said, interval_said, scan_said, write_said};
use crate::scans::{is_waiting, most};
use pgs_chunk::Ask;
use pgs_done::Done;
use pgs_group::{Group, Pulled};
use pgs_history::Made;
use pgs_lines::{Basic, Context, Damage, Object, Snap, Step};
use pgs_request::{Op, ReqId};
use pgs_shard::ScanAnswer;
use pgs_shard_history::DamageAnswer;
use pgs_shards::{OsdDevice, Shards};
use pgs_slots::SlotList;
use sqlite_items::Items;
use std::alloc::{AllocError, Global};
use std::marker::Model;
use std::mem;

mod admissions;
mod lists;
mod scrubs;
mod slots;
mod sweeps;

/// A placement group with the shards of its members. The slots of all OSDs and what was done are lent to it for a step: see `exchange`.
#[derive(Drop)]
pub struct PlacementGroup {
    alloc: Global,
    group: Group,
    shards: Shards,
    slots: SlotList,
    done: Vec<Done>,
}

impl Model for PlacementGroup {
    ghost use Rattle.std.specs.Prelude.{◌≡◌, reverse};
    ghost use Rattle.pgs_placement.specs.State.{PlacementState};

    ghost Value = { PlacementState };

    ghost view = { λ w. record {
      made = w.group.made;
      stride = w.shards.stride;
      past = w.group.past;
      members = w.shards.all;
      slots = w.slots;
      done = reverse w.done.items;
    } };
}

// The chunk of an ask, if there is one.
fn chunk_of(ask: &Option<Ask>) -> Option<u64>
    ensures { result ≡ option_map (λ a. a.chunk) ask.now }
{
    match ask {
        Some(ask) => Some(ask.chunk),
        None => None,
    }
}

impl PlacementGroup {
    /// Before the first step, with no slots and nothing done. The devices are those of the members, in their order. Members read so
    /// many bytes of a copy's data at a step of a scan.
    pub fn new(
        alloc: Global,
        made: Made,
        devices: &[OsdDevice],
        stride: u32,
    ) -> Result<PlacementGroup, AllocError>
        requires stride { 1 ≤ stride }
        ensures { IfOk result (λ w. w ≡ opening made devices.now stride []) }
    {
        let shards = Shards::new(alloc, devices, stride)?;
        let slots = SlotList::new(alloc, &[])?;
        Ok(PlacementGroup {
            alloc,
            group: Group::new(alloc, made),
            shards,
            slots,
            done: Vec::new(alloc),
        })
    }

    /// Its number in the pool.
    pub fn number(&self) -> u32
        ensures { result ≡ self.now.made.number }
    {
        self.group.made().number
    }

    /// Gives the slots and what was done for these, and takes these: a group has those of all groups for as long as it makes a step.
    pub fn exchange(&mut self, slots: &mut SlotList, done: &mut Vec<Done>)
        ensures lent { self.new ≡ record self.old { slots = slots.old; done = reverse done.old.items } }
        ensures slots { slots.new ≡ self.old.slots }
        ensures done { reverse done.new.items ≡ self.old.done }
    {
        mem::swap(&mut self.slots, slots);
        mem::swap(&mut self.done, done);
    }

    // A client writes.
    fn write(
        &mut self,
        client: u32,
        serial: u32,
        object: &Object,
        context: &Context,
        op: &Op,
    ) -> Result<(), AllocError>
        requires idle { is_admitting self.old.past ≡ false }
        ensures { OnOk result (self.new ≡ basics.after_write self.old client serial object.now (meant context.now) op.now) }
    {
        self.done.reserve(1)?;
        let context = context.meant(self.alloc)?;
        let write = write_of(client, serial, object, &context, op)?;
        let answer = self.group.submit(write)?;
        let answer = write_said(self.alloc, &answer)?;
        let object = object.clone()?;
        let op = op.clone()?;
        self.done.push_reserved(Done::Write {
            client,
            serial,
            object,
            context,
            op,
            answer,
        });
        Ok(())
    }

    // A client asks for the outcome of a request.
    fn collect(&mut self, group: u32, client: u32, serial: u32) -> Result<(), AllocError>
        requires idle { is_admitting self.old.past ≡ false }
        ensures { OnOk result (self.new ≡ basics.after_collecting self.old group client serial) }
    {
        self.done.reserve(1)?;
        let answer = self.group.collect(ReqId { client, serial })?;
        self.done.push_reserved(Done::Collect {
            group,
            client,
            serial,
            answer: collect_said(answer),
        });
        Ok(())
    }

    // A member pulls the log, and is told what it is asked for. Where memory runs out it may have pulled items that its shard wasn't fed.
    #[tactic(auto, using(crate::proofs::Pulls::pull_next, crate::proofs::Pulls::pull_from))]
    fn pull(&mut self, group: u32, osd: u32) -> Result<(), AllocError>
        requires sound { IsSound self.old }
        requires member { is_member self.old.made osd ≡ true }
        ensures { OnOk result (self.new ≡ basics.after_pulling self.old group osd) }
    {
        self.done.reserve(1)?;
        let Pulled {
            from,
            to,
            items,
            ask,
            is_new,
        } = self.group.pull(osd)?;
        let asked = chunk_of(&ask);
        if is_new {
            self.shards.feed(osd, from, items, ask)?;
        }
        self.done.push_reserved(Done::Pull {
            group,
            osd,
            from,
            to,
            asked,
        });
        Ok(())
    }

    // A member applies its next item, if one waits. It answers whether one waited.
    fn apply(&mut self, group: u32, osd: u32) -> Result<bool, AllocError>
        ensures waiting { IfOk result (λ b. b ≡ steps.is_waiting (apply_in self.old.members osd)) }
        ensures after { OnOk result (self.new ≡ basics.after_applying self.old group osd) }
    {
        self.done.reserve(1)?;
        let applied = self.shards.apply_next(osd)?;
        self.done.push_reserved(Done::Apply {
            group,
            osd,
            answer: apply_said(applied),
        });
        Ok(is_waiting(applied))
    }

    // A member tells how far it has applied the log.
    fn tell(&mut self, group: u32, osd: u32) -> Result<(), AllocError>
        requires idle { is_admitting self.old.past ≡ false }
        ensures { OnOk result (self.new ≡ basics.after_telling self.old group osd) }
    {
        self.done.reserve(1)?;
        let applied = self.group.tell(osd, self.shards.applied(osd))?;
        self.done.push_reserved(Done::Tell {
            group,
            osd,
            applied,
        });
        Ok(())
    }

    // Other members are to act.
    fn change(&mut self, group: u32, acting: &[u32]) -> Result<(), AllocError>
        requires sound { IsSound self.old }
        requires members { IsActing self.old.made acting.now }
        ensures { OnOk result (self.new ≡ basics.after_changing self.old group acting.now) }
    {
        self.done.reserve(1)?;
        let kept = Items::from_slice(self.alloc, acting)?;
        let told = Items::from_slice(self.alloc, acting)?;
        let answer = self.group.interval(kept)?;
        self.done.push_reserved(Done::Interval {
            group,
            acting: told,
            answer: interval_said(answer),
        });
        Ok(())
    }

    // A copy that a member stores is damaged.
    fn damage(
        &mut self,
        group: u32,
        osd: u32,
        object: &Object,
        snap: Snap,
        damage: &Damage,
    ) -> Result<(), AllocError>
        ensures { OnOk result (self.new ≡ basics.after_damaging self.old group osd object.now snap damage.now) }
    {
        let answer = self.do_damage(osd, object, snap, damage)?;
        let object = object.clone()?;
        let damage = damage.clone()?;
        self.done.push(Done::Damage {
            group,
            osd,
            object,
            snap,
            damage,
            answer: damage_said(answer),
        })?;
        Ok(())
    }

    // What a copy's damage is answered.
    fn do_damage(
        &mut self,
        osd: u32,
        object: &Object,
        snap: Snap,
        damage: &Damage,
    ) -> Result<DamageAnswer, AllocError>
        ensures answer { IfOk result (λ a. a ≡ damage_in self.old.members osd (naming.family_of object.now) (naming.snap_of snap) (naming.damage_of damage.now)) }
        ensures kept { OnOk result (self.new ≡ record self.old { members = with_damage osd (naming.family_of object.now) (naming.snap_of snap) (naming.damage_of damage.now) self.old.members }) }
    {
        let family = family_of(object)?;
        let damage = damage_of(self.alloc, damage)?;
        self.shards.damage(osd, family, snap_of(snap), damage)
    }

    // A member makes a small step of its scan.
    fn scan(&mut self, group: u32, osd: u32) -> Result<ScanAnswer, AllocError>
        ensures answer { IfOk result (λ a. a ≡ scan_in self.old.stride self.old.members osd) }
        ensures after { OnOk result (self.new ≡ basics.after_scanning self.old group osd) }
    {
        self.done.reserve(1)?;
        let scanned = self.shards.scan(osd)?;
        let answer = scan_said(self.alloc, &scanned)?;
        self.done.push_reserved(Done::Scan { group, osd, answer });
        Ok(scanned)
    }

    /// Does a single step, and keeps it with its answer, and takes up the writes that waited and need not wait any more. Where
    /// memory runs out a part of it may be done.
    #[tactic(auto, using(crate::proofs::Sound::sound_basic))]
    pub fn basic(&mut self, basic: &Basic) -> Result<(), AllocError>
        requires sound { IsSound self.old }
        requires named { IsNamed self.old.made basic.now }
        ensures after { OnOk result (self.new ≡ steps.after_basic self.old basic.now) }
        ensures sound { OnOk result (IsSound self.new) }
    {
        self.do_basic(basic)?;
        self.admit_all()?;
        Ok(())
    }

    fn do_basic(&mut self, basic: &Basic) -> Result<(), AllocError>
        requires sound { IsSound self.old }
        requires named { IsNamed self.old.made basic.now }
        ensures { OnOk result (self.new ≡ steps.basic_done self.old basic.now) }
    {
        match basic {
            Basic::Write {
                client,
                serial,
                object,
                context,
                op,
            } => self.write(*client, *serial, object, context, op),
            Basic::Collect {
                group,
                client,
                serial,
            } => self.collect(*group, *client, *serial),
            Basic::Pull { group, osd } => self.pull(*group, *osd),
            Basic::Apply { group, osd } => {
                self.apply(*group, *osd)?;
                Ok(())
            }
            Basic::Tell { group, osd } => self.tell(*group, *osd),
            Basic::Damage {
                group,
                osd,
                object,
                snap,
                damage,
            } => self.damage(*group, *osd, object, *snap, damage),
            Basic::Interval { group, acting } => self.change(*group, acting.as_slice()),
            Basic::Begin { .. }
            | Basic::Claim { .. }
            | Basic::Release { .. }
            | Basic::Open { .. }
            | Basic::Scan { .. }
            | Basic::Take { .. }
            | Basic::Close { .. } => self.do_scrub(basic),
            Basic::Job { .. } | Basic::Unjob { .. } | Basic::Pick { .. } => Ok(()),
        }
    }

    // A step of a scrub.
    fn do_scrub(&mut self, basic: &Basic) -> Result<(), AllocError>
        requires sound { IsSound self.old }
        requires named { IsNamed self.old.made basic.now }
        requires scrub { steps.is_scrub basic.now ≡ true }
        ensures { OnOk result (self.new ≡ steps.basic_done self.old basic.now) }
    {
        match basic {
            Basic::Begin { group, kind } => {
                self.begin_scrub(*group, *kind)?;
                Ok(())
            }
            Basic::Claim { group } => {
                self.claim(*group)?;
                Ok(())
            }
            Basic::Release { group, osd } => self.release(*group, *osd),
            Basic::Open { group } => self.open(*group),
            Basic::Scan { group, osd } => {
                self.scan(*group, *osd)?;
                Ok(())
            }
            Basic::Take { group, osd } => self.take(*group, *osd),
            Basic::Close { group } => self.close(*group),
            _ => unreachable!(),
        }
    }

    // A member applies its items until none waits.
    #[tactic(auto, using(crate::proofs::Settles::applying))]
    fn apply_all(&mut self, group: u32, osd: u32) -> Result<(), AllocError>
        ensures { OnOk result (self.new ≡ steps.applied_out MOST self.old group osd) }
    {
        let most = most();
        for _ in 0..most {
            if !self.apply(group, osd)? {
                return Ok(());
            }
        }
        Ok(())
    }

    // A member pulls, applies until nothing waits, and tells.
    #[tactic(auto, using(crate::proofs::Settles::applied_idle))]
    fn settle_member(&mut self, group: u32, osd: u32) -> Result<(), AllocError>
        requires sound { IsSound self.old }
        requires member { is_member self.old.made osd ≡ true }
        ensures { OnOk result (self.new ≡ steps.member_settled self.old group osd) }
    {
        self.pull(group, osd)?;
        self.apply_all(group, osd)?;
        self.tell(group, osd)?;
        Ok(())
    }

    // Every member does so, in declared order.
    #[tactic(auto, using(crate::proofs::Settles::settling))]
    fn settle(&mut self, group: u32) -> Result<(), AllocError>
        requires sound { IsSound self.old }
        ensures { OnOk result (self.new ≡ steps.settled self.old group self.old.made.members) }
    {
        let members = Items::from_slice(self.alloc, self.group.made().members.as_slice())?;
        for osd in members.as_slice() {
            self.settle_member(group, *osd)?;
        }
        Ok(())
    }

    /// Does a step of a script. A job waits in the queue of all groups, and a step of one changes no group. Where memory runs out a part
    /// of the step may be done.
    #[tactic(auto, using(crate::proofs::Runs::sound_step))]
    pub fn step(&mut self, step: &Step) -> Result<(), AllocError>
        requires sound { IsSound self.old }
        requires named { IsNamedStep self.old.made step.now }
        ensures after { OnOk result (self.new ≡ steps.after_step self.old step.now) }
        ensures sound { OnOk result (IsSound self.new) }
    {
        self.do_step(step)?;
        Ok(())
    }

    fn do_step(&mut self, step: &Step) -> Result<(), AllocError>
        requires sound { IsSound self.old }
        requires named { IsNamedStep self.old.made step.now }
        ensures { OnOk result (self.new ≡ steps.after_step self.old step.now) }
    {
        match step {
            Step::Basic { basic } => self.basic(basic),
            Step::Settle { group } => self.settle(*group),
            Step::Sweep { group, kind } => self.sweep(*group, *kind),
            Step::ListObj { .. } => self.list_obj(),
            Step::ListSnap { .. } => self.list_snap(),
        }
    }
}
