//! What a member hands to its group of a scan that ended: the map as bytes, which is checked against what was asked for.
#![tactic(auto)]

mod checking;
mod deposit;
mod deposit_error;
mod encoded_map;
mod opening;
mod places;
mod scan_result;
#[cfg(test)]
mod tests;

pub use checking::check_deposit;
pub use deposit::{Deposit, Handed};
pub use deposit_error::DepositError;
pub use encoded_map::EncodedMap;
pub use opening::{open_deposit, open_whole};
pub use scan_result::{Found, ScanResult};
