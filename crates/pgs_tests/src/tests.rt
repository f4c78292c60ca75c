//! Each file tests one topic.
mod copies;
mod digests;
mod edits;
mod ends;
mod names;
