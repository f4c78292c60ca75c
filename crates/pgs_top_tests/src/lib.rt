//! Tests of logs, groups, shards, worlds and whole runs. They stand in one crate, since what each crate of tests reads of those
//! below it costs more than a test.
#![tactic(auto)]

#[cfg(test)]
mod tests;
