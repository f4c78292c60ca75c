//! Groups, and the shards of members.
mod groups;
mod making;
mod shards;
