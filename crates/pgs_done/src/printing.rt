//! How what was done is printed.
mod answers;
mod contexts;
mod damages;
mod lines;
mod objects;
mod ops;
mod plans;
mod ranges;
mod scans;
mod scrubs;
mod steps;
mod words;

pub use lines::print;
