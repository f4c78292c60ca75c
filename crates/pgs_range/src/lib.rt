//! Bounds and ranges in the order of families, how they lie beside one another, and where a listing of positions goes on.
#![tactic(auto)]

mod bound;
mod bounds;
mod cursor;
mod family_range;

pub use bound::Bound;
pub use bounds::{compare_bounds, is_within, split};
pub use cursor::Cursor;
pub use family_range::FamilyRange;
