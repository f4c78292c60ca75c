ghost use Rattle.std.specs.Prelude.{◌≡◌, [], length, IfOk, IfNone, OnOk, OnErr, None};
ghost use Rattle.pgs_queue.specs.Jobs.{job_of, without, with_job, add_answer, least_ripe, taken_out, AreDistinct, IsPicked};

use crate::add_answer::AddAnswer;
use crate::job::Job;
use crate::searches::{job_of, least_ripe, remove};
use std::alloc::{AllocError, Global};
use std::marker::Model;

/// Jobs that wait to be picked, in the order in which they were added.
#[derive(Drop)]
pub struct ScrubQueue {
    jobs: Vec<Job>,
}

impl Model for ScrubQueue {
    ghost use Rattle.std.specs.Prelude.{List};
    ghost use Rattle.pgs_queue.specs.declared.job.Job.{Job as QueuedJob};
    ghost use Rattle.pgs_queue.specs.Jobs.{AreDistinct};

    ghost Value = { List QueuedJob };

    ghost view = { λ q. q.jobs.items };

    ghost invariant = { λ q. AreDistinct q.jobs.items };
}

impl ScrubQueue {
    /// No job. It takes no memory.
    pub fn new(alloc: Global) -> ScrubQueue
        ensures { result ≡ [] }
    {
        ScrubQueue {
            jobs: Vec::new(alloc),
        }
    }

    /// Adds a job behind the others, unless one of its group waits.
    #[tactic(auto, using(crate::proofs::Kept::adds))]
    pub fn add(&mut self, job: Job) -> Result<AddAnswer, AllocError>
        ensures answer { IfOk result (λ answer. answer ≡ add_answer self.old job) }
        ensures kept { OnOk result (self.new ≡ with_job self.old job) }
        ensures err { OnErr result (self.new ≡ self.old) }
        ensures memory { OnErr result (job_of job.group self.old ≡ None) }
    {
        if let Some(job) = job_of(&self.jobs, job.group) {
            return Ok(AddAnswer::Already { job });
        }
        self.jobs.push(job)?;
        Ok(AddAnswer::Queued)
    }

    /// Takes out the first to be picked of the jobs that may be picked now.
    #[tactic(auto, using(crate::proofs::Kept::picks))]
    pub fn pick(&mut self, now: u32) -> Option<Job>
        ensures least { result ≡ least_ripe now self.old }
        ensures kept { self.new ≡ taken_out result self.old }
        ensures picked { IsPicked result now self.old self.new }
    {
        let job = least_ripe(&self.jobs, now)?;
        remove(&mut self.jobs, job.group);
        Some(job)
    }

    /// Takes out the job of a group.
    #[tactic(auto, using(crate::proofs::Kept::drops))]
    pub fn drop_job(&mut self, group: u32) -> Option<Job>
        ensures job { result ≡ job_of group self.old }
        ensures kept { self.new ≡ without group self.old }
        ensures none { IfNone result (self.new ≡ self.old) }
    {
        let job = job_of(&self.jobs, group);
        remove(&mut self.jobs, group);
        job
    }

    /// How many jobs wait.
    pub fn len(&self) -> usize
        ensures { result ≡ length self.now }
    {
        self.jobs.len()
    }

    /// The jobs that wait, in the order in which they were added.
    pub fn jobs(&self) -> &[Job]
        ensures jobs { result.now ≡ self.now }
        ensures distinct { AreDistinct result.now }
    {
        self.jobs.as_slice()
    }
}
