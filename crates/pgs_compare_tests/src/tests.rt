//! Each file tests one topic.
mod choices;
mod masking;
mod objects;
mod parts;
mod shards;
mod snaps;
mod values;
mod views;
