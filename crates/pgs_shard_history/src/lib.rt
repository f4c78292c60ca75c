//! What happened to one member's shard: its kept events, and what they say of its items, its store and the scan of its newest ask.
#![tactic(auto)]

mod damage_answer;
mod event;
mod limits;
mod phase;
mod scan_event;

pub use damage_answer::DamageAnswer;
pub use event::Event;
pub use limits::SHARD_MAX;
pub use phase::Phase;
pub use scan_event::ScanEvent;
