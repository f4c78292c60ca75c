//! What happened to a group: its kept events, and what they say of its log, its members, its scrubs and the answers due.
#![tactic(auto)]

mod begin_answer;
mod cause;
mod chunk;
mod close_answer;
mod collect_answer;
mod current;
mod end;
mod event;
mod fate;
mod fault_answer;
mod interval_answer;
mod made;
mod open_answer;
mod reserve_answer;
mod take_answer;
mod write_answer;

pub use begin_answer::BeginAnswer;
pub use cause::Cause;
pub use chunk::Chunk;
pub use close_answer::CloseAnswer;
pub use collect_answer::CollectAnswer;
pub use current::Current;
pub use end::End;
pub use event::Event;
pub use fate::Fate;
pub use fault_answer::FaultAnswer;
pub use interval_answer::IntervalAnswer;
pub use made::Made;
pub use open_answer::OpenAnswer;
pub use reserve_answer::ReserveAnswer;
pub use take_answer::TakeAnswer;
pub use write_answer::WriteAnswer;
