//! Writes, growths, logs and listings.
mod growths;
mod listings;
mod logs;
mod making;
mod writes;
