//! Each folder tests one layer.
mod group;
mod log;
mod run;
