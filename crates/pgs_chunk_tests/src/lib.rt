//! Tests of limits and of where chunks end.
#![tactic(auto)]

mod making;

pub use making::clones_and_next;

#[cfg(test)]
mod tests;
