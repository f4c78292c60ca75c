//! The readers of lines.
mod basics;
mod contexts;
mod damages;
mod lines;
mod objects;
mod ops;
mod payloads;
mod steps;

pub use lines::line_in;
