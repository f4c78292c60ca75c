ghost use Rattle.std.specs.Prelude.{◌≡◌, ◌<◌, ◌≤◌, length, None, if◌then◌else◌, IfOk, OnErr};
ghost use Rattle.std.specs.Io.{WritesAtMost};
ghost use Rattle.std.specs.Io.KnownBytes.{WriteAppends};
ghost use Rattle.pgs_cause.specs.Count.{Rose};
ghost use Rattle.pgs_edge.specs.Calls.{one_more};
ghost use Rattle.pgs_edge.specs.Standard.{writer_of, write_faults, is_write_fault};

use crate::sink::Sink;
use pgs_cause::{Failed, raised};
use std::io::Write;

/// A writer of std as a sink, as standard output. It tells nothing of its bytes. Each error of the
/// writer is a fault, an interrupted call too, and so is a call that takes nothing of a piece with
/// bytes. It flushes nothing.
#[derive(Drop)]
pub struct StdSink<W> {
    writer: W,
    faults: u64,
}

impl<W: Write> StdSink<W> {
    /// A sink that writes from here on.
    pub fn new(writer: W) -> StdSink<W>
        ensures writer { writer_of result ≡ writer }
        ensures faults { write_faults result ≡ 0 }
    {
        StdSink { writer, faults: 0 }
    }
}

impl<W: Write> Sink for StdSink<W> {
    ghost taken = { λ _. None };

    ghost faults = { λ s. write_faults s };

    fn write(&mut self, from: &[u8]) -> Result<usize, Failed>
        ensures within { WritesAtMost result from.now }
        ensures bytes { WriteAppends
            (W.contents (writer_of self.old)) (W.contents (writer_of self.new)) result from.now }
        ensures failed { OnErr result (Rose (write_faults self.old) (write_faults self.new)) }
        ensures nothing { IfOk result (λ count.
            count ≡ 0 → 0 < length from.now → Rose (write_faults self.old) (write_faults self.new)) }
        ensures later { write_faults self.old ≤ write_faults self.new }
        ensures counted { write_faults self.new
            ≡ (if is_write_fault result (length from.now)
            then one_more (write_faults self.old) else write_faults self.old) }
    {
        match self.writer.write(from) {
            Ok(0) => {
                if !from.is_empty() {
                    self.faults = raised(self.faults);
                }
                Ok(0)
            }
            Ok(count) => Ok(count),
            Err(_) => {
                self.faults = raised(self.faults);
                Err(Failed)
            }
        }
    }
}
