//! The ends of the program: where its bytes come from and where they go to.
#![tactic(auto)]

mod mem_sink;
mod mem_source;
mod reading;
mod sink;
mod source;
mod std_sink;
mod std_source;
mod writing;

pub use mem_sink::MemSink;
pub use mem_source::MemSource;
pub use reading::{ReadAllError, read_all};
pub use sink::Sink;
pub use source::Source;
pub use std_sink::StdSink;
pub use std_source::StdSource;
pub use writing::{WriteFault, write_all};
