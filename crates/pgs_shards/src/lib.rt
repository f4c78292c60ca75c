//! The shards of a group's members, found by their OSDs. Their devices are in memory, and fail the calls that they are told to.
#![tactic(auto)]

mod apply_answer;
mod list_answer;
mod osd_device;
mod ram_shard;
mod shards;

pub use apply_answer::ApplyAnswer;
pub use list_answer::ListAnswer;
pub use osd_device::OsdDevice;
pub use shards::Shards;
