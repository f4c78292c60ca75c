//! The jobs that wait for a scrub.
ghost use Rattle.std.specs.Prelude.{◌≡◌, OnOk};
ghost use Rattle.pgs_world.specs.Jobs as jobs;

use super::World;
use crate::saying::{job_said, pick_said, unjob_said};
use pgs_done::Done;
use pgs_lines::Kind;
use pgs_placement::kind_of;
use pgs_queue::Job;
use std::alloc::AllocError;

impl World {
    // A job of a group is to wait.
    pub(super) fn queue(
        &mut self,
        group: u32,
        kind: Kind,
        rank: u8,
        moment: u32,
    ) -> Result<(), AllocError>
        ensures { OnOk result (self.new ≡ jobs.after_queueing self.old group kind rank moment) }
    {
        self.done.reserve(1)?;
        let answer = self.queue.add(Job {
            group,
            kind: kind_of(kind),
            rank,
            not_before: moment,
        })?;
        self.done.push_reserved(Done::Job {
            group,
            kind,
            rank,
            moment,
            answer: job_said(answer),
        });
        Ok(())
    }

    // The job of a group waits no longer.
    pub(super) fn unqueue(&mut self, group: u32) -> Result<(), AllocError>
        ensures { OnOk result (self.new ≡ jobs.after_dropping self.old group) }
    {
        self.done.reserve(1)?;
        let dropped = self.queue.drop_job(group);
        self.done.push_reserved(Done::Unjob {
            group,
            answer: unjob_said(dropped),
        });
        Ok(())
    }

    // The first to be picked of the jobs that may be picked at a moment is taken out.
    pub(super) fn pick(&mut self, moment: u32) -> Result<(), AllocError>
        ensures { OnOk result (self.new ≡ jobs.after_picking self.old moment) }
    {
        self.done.reserve(1)?;
        let picked = self.queue.pick(moment);
        self.done.push_reserved(Done::Pick {
            moment,
            answer: pick_said(picked),
        });
        Ok(())
    }
}
