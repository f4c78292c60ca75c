//! What was done and how it was answered, and the line that is printed of it.
#![tactic(auto)]

mod apply_answer;
mod begin_answer;
mod bound;
mod claim_answer;
mod close_answer;
mod collect_answer;
mod damage_answer;
mod done;
mod holder;
mod interval_answer;
mod job_answer;
mod mark;
mod open_answer;
mod pick_answer;
mod position;
mod printing;
mod range;
mod release_answer;
mod scan_answer;
mod take_answer;
mod unjob_answer;
mod write_answer;

pub use apply_answer::ApplyAnswer;
pub use begin_answer::BeginAnswer;
pub use bound::Bound;
pub use claim_answer::ClaimAnswer;
pub use close_answer::CloseAnswer;
pub use collect_answer::CollectAnswer;
pub use damage_answer::DamageAnswer;
pub use done::Done;
pub use holder::Holder;
pub use interval_answer::IntervalAnswer;
pub use job_answer::JobAnswer;
pub use mark::Mark;
pub use open_answer::OpenAnswer;
pub use pick_answer::PickAnswer;
pub use position::Position;
pub use printing::print;
pub use range::Range;
pub use release_answer::ReleaseAnswer;
pub use scan_answer::ScanAnswer;
pub use take_answer::TakeAnswer;
pub use unjob_answer::UnjobAnswer;
pub use write_answer::WriteAnswer;
