//! The queue of scrub jobs: at most one a group, and the most urgent of those whose time has come is picked first.
#![tactic(auto)]

mod add_answer;
mod job;
mod order;
mod scrub_queue;
mod searches;
#[cfg(test)]
mod tests;

pub use add_answer::AddAnswer;
pub use job::Job;
pub use scrub_queue::ScrubQueue;
