//! Tests of devices and shards.
#![tactic(auto)]

#[cfg(test)]
mod listing;
#[cfg(test)]
mod making;
#[cfg(test)]
mod many;
#[cfg(test)]
mod reading;
#[cfg(test)]
mod scanning;
#[cfg(test)]
mod tests;
