//! Jobs looked for in a list, and taken out of it.
ghost use Rattle.std.specs.Prelude.{◌≡◌};
ghost use Rattle.pgs_queue.specs.Jobs.{job_of, without, lesser, least_ripe};

use crate::job::Job;
use crate::order::{is_before, is_ripe};

/// The job of a group.
pub fn job_of(jobs: &[Job], group: u32) -> Option<Job>
    ensures { result ≡ job_of group jobs.now }
{
    jobs.iter().copied().find(|job| job.group == group)
}

/// Takes the job of a group out.
pub fn remove(jobs: &mut Vec<Job>, group: u32)
    ensures { jobs.new.items ≡ without group jobs.old.items }
{
    jobs.retain(|job| job.group != group);
}

// The job that is picked first, of one and of the first of others.
fn lesser(job: Job, least: Option<Job>) -> Job
    ensures { result ≡ lesser job least }
{
    match least {
        Some(other) if is_before(&other, &job) => other,
        _ => job,
    }
}

/// The first to be picked of the jobs that may be picked at a moment.
#[tactic(auto, using(crate::proofs::Turns::turns))]
pub fn least_ripe(jobs: &[Job], now: u32) -> Option<Job>
    ensures { result ≡ least_ripe now jobs.now }
{
    let mut least = None;
    let mut left = jobs.len();
    while left > 0 {
        left -= 1;
        let job = jobs[left];
        if is_ripe(&job, now) {
            least = Some(lesser(job, least));
        }
    }
    least
}
