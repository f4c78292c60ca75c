//! Tests of the comparison of copies: tables of cases, each with all that a report says of it, worked out from the definitions.
#![tactic(auto)]

#[cfg(test)]
mod cases;
#[cfg(test)]
mod comparing;
#[cfg(test)]
mod making;
#[cfg(test)]
mod sketch;
#[cfg(test)]
mod telling;
#[cfg(test)]
mod tests;
