//! Each file tests one topic.
mod lines;
mod objects;
mod operations;
mod plans;
mod printed;
mod printing;
mod scans;
mod scripts;
mod scrubs;
mod words;
