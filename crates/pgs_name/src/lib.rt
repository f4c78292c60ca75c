//! Names of objects: a space, a key, a name and a snap within their bounds; and their order.
#![tactic(auto)]

mod family;
mod hashing;
mod name_error;
mod object_id;
mod part;
mod positions;
mod refusals;
mod reversing;

pub use family::Family;
pub use name_error::NameError;
pub use object_id::{HEAD, ObjectId};
pub use part::Part;
pub use positions::{compare, is_before};
pub use reversing::reverse_bits;
