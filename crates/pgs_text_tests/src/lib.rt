//! Tests over the crates of texts: words, lines, what is printed, and scripts. They stand here alone, since a crate with
//! tests is proved twice.
#![tactic(auto)]

#[cfg(test)]
mod tests;
