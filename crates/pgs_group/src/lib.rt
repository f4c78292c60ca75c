//! A group: its steps, each answered by what happened before, and its history.
#![tactic(auto)]

mod accepting;
mod acting;
mod admitted;
mod behind;
mod close_told;
mod comparing;
mod copying;
mod counts;
mod due;
mod given;
mod group;
mod limits_now;
mod next_chunk;
mod noting;
mod osds;
mod pulled;
mod refusals;
mod scrubbing;
mod step;
mod taken;
mod weighed;

pub use admitted::Admitted;
pub use close_told::CloseTold;
pub use counts::Counts;
pub use group::Group;
pub use next_chunk::NextChunk;
pub use pulled::Pulled;
pub use step::{Answer, Step};
