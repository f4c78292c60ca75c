ghost use Rattle.std.specs.Prelude.{◌≡◌, ◌≤◌, None, is_ok, if◌then◌else◌, OnErr};
ghost use Rattle.std.specs.Io.{ReadsAtMost};
ghost use Rattle.std.specs.Io.KnownBytes.{ReadConsumes};
ghost use Rattle.pgs_cause.specs.Count.{Rose};
ghost use Rattle.pgs_edge.specs.Calls.{one_more};
ghost use Rattle.pgs_edge.specs.Standard.{reader_of, read_faults};

use crate::source::Source;
use pgs_cause::{Failed, raised};
use std::io::Read;

/// A reader of std as a source, as standard input. It tells nothing of its bytes. Each error of
/// the reader is a fault, an interrupted call too.
#[derive(Drop)]
pub struct StdSource<R> {
    reader: R,
    faults: u64,
}

impl<R: Read> StdSource<R> {
    /// A source that reads from here on.
    pub fn new(reader: R) -> StdSource<R>
        ensures reader { reader_of result ≡ reader }
        ensures faults { read_faults result ≡ 0 }
    {
        StdSource { reader, faults: 0 }
    }
}

impl<R: Read> Source for StdSource<R> {
    ghost left = { λ _. None };

    ghost faults = { λ s. read_faults s };

    fn read(&mut self, into: &mut [u8]) -> Result<usize, Failed>
        ensures within { ReadsAtMost result into.new }
        ensures bytes { ReadConsumes
            (R.remaining (reader_of self.old)) (R.remaining (reader_of self.new)) result into.new }
        ensures failed { OnErr result (Rose (read_faults self.old) (read_faults self.new)) }
        ensures later { read_faults self.old ≤ read_faults self.new }
        ensures counted { read_faults self.new
            ≡ (if is_ok result then read_faults self.old else one_more (read_faults self.old)) }
    {
        match self.reader.read(into) {
            Ok(count) => Ok(count),
            Err(_) => {
                self.faults = raised(self.faults);
                Err(Failed)
            }
        }
    }
}
