//! The copies of one family of an object, the head and its clones, and what effects and damage do to them.
#![tactic(auto)]

mod damage;
mod damages;
mod effect;
mod effects;
mod in_place;
mod obj_copy;
mod pairs;

pub use damage::Damage;
pub use damages::{apply_damage, damaged, makes_copy};
pub use effect::Effect;
pub use effects::apply_effects;
pub use obj_copy::ObjCopy;
pub use pairs::Pairs;
