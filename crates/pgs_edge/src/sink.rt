ghost use Rattle.std.specs.Prelude.{◌≡◌, ℕ, ◌<◌, ◌≤◌, List, length, Option, IfOk, OnErr};
ghost use Rattle.std.specs.Io.{WritesAtMost};
ghost use Rattle.std.specs.Io.KnownBytes.{WriteAppends};
ghost use Rattle.pgs_cause.specs.Count.{Rose};

use pgs_cause::Failed;

/// Where bytes go to.
pub trait Sink {
    // The bytes that were taken, where they are told.
    ghost taken: { Self → Option (List ℕ) };

    // A count of the faults, which never falls.
    ghost faults: { Self → ℕ };

    /// Takes bytes from the front of a piece, and says how many. A call that takes none of a piece
    /// with bytes is a fault too, whether it answers `Failed` or 0.
    fn write(&mut self, from: &[u8]) -> Result<usize, Failed>
        ensures within { WritesAtMost result from.now }
        ensures bytes { WriteAppends (taken self.old) (taken self.new) result from.now }
        ensures failed { OnErr result (Rose (faults self.old) (faults self.new)) }
        ensures nothing { IfOk result (λ count.
            count ≡ 0 → 0 < length from.now → Rose (faults self.old) (faults self.new)) }
        ensures later { faults self.old ≤ faults self.new };
}
