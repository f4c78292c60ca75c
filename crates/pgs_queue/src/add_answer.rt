use crate::job::Job;

/// What adding a job answers.
#[derive(Clone, Copy, PartialEq)]
pub enum AddAnswer {
    /// The job waits in the queue.
    Queued,
    /// A job of its group waits already, and stays.
    Already {
        /// The job that waits.
        job: Job,
    },
}
