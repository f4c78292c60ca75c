//! Whole runs: scripts, with all that they print or the end of it.
mod plans;
mod queues;
mod running;
mod runs;
mod scrubs;
mod settings;
