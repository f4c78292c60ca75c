//! Tests over all crates: worked examples and outside vectors. They stand here alone, since a crate with tests is proved twice.
#![tactic(auto)]

#[cfg(test)]
mod tests;
