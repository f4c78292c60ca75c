ghost use Rattle.std.specs.Prelude.{ℕ, ◌≤◌, List, Option, OnErr};
ghost use Rattle.std.specs.Io.{ReadsAtMost};
ghost use Rattle.std.specs.Io.KnownBytes.{ReadConsumes};
ghost use Rattle.pgs_cause.specs.Count.{Rose};

use pgs_cause::Failed;

/// Where bytes come from.
pub trait Source {
    // The bytes that are left to be read, where they are told.
    ghost left: { Self → Option (List ℕ) };

    // A count of the faults, which never falls.
    ghost faults: { Self → ℕ };

    /// Reads bytes to the front of a piece, and says how many. What stands in the piece behind
    /// them is free. For a piece with room, 0 says that the source has ended. It may fail at one
    /// call and give more bytes at the next.
    fn read(&mut self, into: &mut [u8]) -> Result<usize, Failed>
        ensures within { ReadsAtMost result into.new }
        ensures bytes { ReadConsumes (left self.old) (left self.new) result into.new }
        ensures failed { OnErr result (Rose (faults self.old) (faults self.new)) }
        ensures later { faults self.old ≤ faults self.new };
}
