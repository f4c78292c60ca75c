ghost use Rattle.std.specs.Prelude.{◌≡◌, ◌<◌, ◌≤◌, ◌++◌, [], length, take, Some, IsErr, IsTrue, IfOk, OnErr};
ghost use Rattle.std.specs.Io.{WritesAtMost};
ghost use Rattle.std.specs.Io.KnownBytes.{WriteAppends};
ghost use Rattle.pgs_cause.specs.Count.{Rose};
ghost use Rattle.pgs_edge.specs.Calls.{one_more, is_named};
ghost use Rattle.pgs_edge.specs.Memory.{sink_count, sink_faults};

use crate::sink::Sink;
use pgs_cause::{Failed, raised};
use std::alloc::Global;
use std::marker::Model;

/// What was taken, in memory, as a sink for tests: it takes at most `piece` bytes a call, and
/// fails or takes nothing at the calls that it is told to. A call also fails where memory runs out.
#[derive(Drop)]
pub struct MemSink {
    items: Vec<u8>,
    piece: usize,
    failing: Vec<u64>,
    idle: Vec<u64>,
    calls: u64,
    faults: u64,
}

impl Model for MemSink {
    ghost use Rattle.std.specs.Prelude.{◌<◌};
    ghost use Rattle.pgs_edge.specs.Memory.{SinkState};

    ghost Value = { SinkState };

    ghost view = { λ s. record {
      taken = s.items.items;
      piece = s.piece;
      failing = s.failing.items;
      idle = s.idle.items;
      calls = s.calls;
      faults = s.faults;
    } };

    ghost invariant = { λ s. 0 < s.piece };
}

impl MemSink {
    /// A sink that took nothing yet. `failing` has the numbers of the calls that fail, from 1, and
    /// `idle` those of the calls that answer 0. A call that both name fails.
    pub fn new(alloc: Global, piece: usize, failing: Vec<u64>, idle: Vec<u64>) -> MemSink
        requires { 0 < piece }
        ensures { result ≡ record {
          taken = [];
          piece = piece;
          failing = failing.items;
          idle = idle.items;
          calls = 0;
          faults = 0;
        } }
    {
        MemSink {
            items: Vec::new(alloc),
            piece,
            failing,
            idle,
            calls: 0,
            faults: 0,
        }
    }

    /// The bytes that were taken.
    pub fn taken(&self) -> &[u8]
        ensures { result.now ≡ self.now.taken }
    {
        self.items.as_slice()
    }

    /// The number of calls that failed or were idle. It stays at its last value.
    pub fn faults(&self) -> u64
        ensures { result ≡ self.now.faults }
    {
        self.faults
    }
}

impl Sink for MemSink {
    ghost taken = { λ s. Some s.taken };

    ghost faults = { λ s. s.faults };

    fn write(&mut self, from: &[u8]) -> Result<usize, Failed>
        ensures within { WritesAtMost result from.now }
        ensures bytes { WriteAppends (Some self.old.taken) (Some self.new.taken) result from.now }
        ensures failed { OnErr result (Rose self.old.faults self.new.faults) }
        ensures nothing { IfOk result (λ count.
            count ≡ 0 → 0 < length from.now → Rose self.old.faults self.new.faults) }
        ensures later { self.old.faults ≤ self.new.faults }

        // Which calls fail whatever the memory, and how much the others take.
        ensures named { IsTrue (is_named self.old.failing (one_more self.old.calls)) → IsErr result }
        ensures count { IfOk result (λ count. count ≡ sink_count self.old (length from.now)) }
        ensures ok { IfOk result (λ count. self.new ≡ record self.old {
          taken = self.old.taken ++ take count from.now;
          calls = one_more self.old.calls;
          faults = sink_faults self.old;
        }) }
        ensures err { OnErr result (self.new ≡ record self.old {
          calls = one_more self.old.calls;
          faults = one_more self.old.faults;
        }) }
    {
        self.calls = self.calls.saturating_add(1);
        if self.failing.contains(&self.calls) {
            self.faults = raised(self.faults);
            return Err(Failed);
        }
        if self.idle.contains(&self.calls) {
            self.faults = raised(self.faults);
            return Ok(0);
        }
        let count = self.piece.min(from.len());
        if self.items.extend_from_slice(&from[..count]).is_err() {
            self.faults = raised(self.faults);
            return Err(Failed);
        }
        Ok(count)
    }
}
