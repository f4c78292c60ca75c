//! How lines say what the queue answers.
ghost use Rattle.std.specs.Prelude.{◌≡◌};
ghost use Rattle.pgs_world.specs.Said as defined;

use pgs_queue::{AddAnswer, Job};

fn kind_said(kind: pgs_chunk::Kind) -> pgs_lines::Kind
    ensures { result ≡ defined.kind_said kind }
{
    match kind {
        pgs_chunk::Kind::Shallow => pgs_lines::Kind::Shallow,
        pgs_chunk::Kind::Deep | pgs_chunk::Kind::Repair => pgs_lines::Kind::Deep,
    }
}

pub fn job_said(answer: AddAnswer) -> pgs_done::JobAnswer
    ensures { result ≡ defined.job_said answer }
{
    match answer {
        AddAnswer::Queued => pgs_done::JobAnswer::Queued,
        AddAnswer::Already { job } => pgs_done::JobAnswer::Already {
            kind: kind_said(job.kind),
            rank: job.rank,
            moment: job.not_before,
        },
    }
}

pub fn unjob_said(dropped: Option<Job>) -> pgs_done::UnjobAnswer
    ensures { result ≡ defined.unjob_said dropped }
{
    match dropped {
        Some(_) => pgs_done::UnjobAnswer::Dropped,
        None => pgs_done::UnjobAnswer::None,
    }
}

pub fn pick_said(picked: Option<Job>) -> pgs_done::PickAnswer
    ensures { result ≡ defined.pick_said picked }
{
    match picked {
        Some(job) => pgs_done::PickAnswer::Picked {
            group: job.group,
            kind: kind_said(job.kind),
        },
        None => pgs_done::PickAnswer::None,
    }
}
