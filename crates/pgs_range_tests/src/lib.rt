//! Tests of the order of positions and bounds: each public call once, over positions in a table.
#![tactic(auto)]

#[cfg(test)]
mod tests;
