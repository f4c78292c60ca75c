//! What a scan reads of one copy, step by step, and the entry that it makes of it.
#![tactic(auto)]

mod appending;
mod asking;
mod entries;
mod mark;
mod reading;
mod reading_step;
#[cfg(test)]
mod tests;

pub use entries::unread_entry;
pub use mark::Mark;
pub use reading::Reading;
pub use reading_step::ReadingStep;
