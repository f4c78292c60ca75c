ghost use Rattle.std.specs.Prelude.{◌≡◌};
ghost use Rattle.pgs_queue.specs.Jobs.{is_ripe, is_before};

use crate::job::Job;

/// Whether a job may be picked at a moment.
pub fn is_ripe(job: &Job, now: u32) -> bool
    ensures { result ≡ is_ripe now job.now }
{
    job.not_before <= now
}

/// Whether a job is picked before another: by rank, then by moment, then by group.
pub fn is_before(a: &Job, b: &Job) -> bool
    ensures { result ≡ is_before a.now b.now }
{
    if a.rank != b.rank {
        return a.rank < b.rank;
    }
    if a.not_before != b.not_before {
        return a.not_before < b.not_before;
    }
    a.group < b.group
}
