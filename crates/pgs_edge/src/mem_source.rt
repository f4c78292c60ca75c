ghost use Rattle.std.specs.Prelude.{◌≡◌, ◌<◌, ◌≤◌, ◌+◌, ◌-◌, ◌++◌, min, [], length, take, drop, Some, is_err, IfOk, OnErr};
ghost use Rattle.std.specs.Io.{ReadsAtMost};
ghost use Rattle.std.specs.Io.KnownBytes.{ReadConsumes};
ghost use Rattle.pgs_cause.specs.Count.{Rose};
ghost use Rattle.pgs_edge.specs.Calls.{one_more, is_named};

use crate::source::Source;
use pgs_bytes::Bytes;
use pgs_cause::{Failed, raised};
use std::marker::Model;

/// A text in memory as a source, for tests: it gives at most `piece` bytes a call, and fails at
/// the calls that it is told to.
#[derive(Drop)]
pub struct MemSource {
    text: Bytes,
    at: usize,
    piece: usize,
    failing: Vec<u64>,
    calls: u64,
    faults: u64,
}

impl Model for MemSource {
    ghost use Rattle.std.specs.Prelude.{◌<◌, ◌≤◌, length, drop};
    ghost use Rattle.pgs_edge.specs.Memory.{SourceState};

    ghost Value = { SourceState };

    ghost view = { λ s. record {
      left = drop s.at s.text;
      piece = s.piece;
      failing = s.failing.items;
      calls = s.calls;
      faults = s.faults;
    } };

    ghost invariant = { λ s. (s.at ≤ length s.text) × (0 < s.piece) };
}

impl MemSource {
    /// A source of these bytes. `failing` has the numbers of the calls that fail, from 1.
    pub fn new(text: Bytes, piece: usize, failing: Vec<u64>) -> MemSource
        requires { 0 < piece }
        ensures { result ≡ record {
          left = text;
          piece = piece;
          failing = failing.items;
          calls = 0;
          faults = 0;
        } }
    {
        MemSource {
            text,
            at: 0,
            piece,
            failing,
            calls: 0,
            faults: 0,
        }
    }

    /// The number of calls that failed. It stays at its last value.
    pub fn faults(&self) -> u64
        ensures { result ≡ self.now.faults }
    {
        self.faults
    }
}

impl Source for MemSource {
    ghost left = { λ s. Some s.left };

    ghost faults = { λ s. s.faults };

    fn read(&mut self, into: &mut [u8]) -> Result<usize, Failed>
        ensures within { ReadsAtMost result into.new }
        ensures bytes { ReadConsumes (Some self.old.left) (Some self.new.left) result into.new }
        ensures failed { OnErr result (Rose self.old.faults self.new.faults) }
        ensures later { self.old.faults ≤ self.new.faults }

        // Which calls fail, and how much the others give.
        ensures named { is_err result ≡ is_named self.old.failing (one_more self.old.calls) }
        ensures count { IfOk result (λ count.
            count ≡ min (min self.old.piece (length into.old)) (length self.old.left)) }
        ensures after { IfOk result (λ count. drop count into.new ≡ drop count into.old) }
        ensures ok { IfOk result (λ count. self.new ≡ record self.old {
          left = drop count self.old.left;
          calls = one_more self.old.calls;
        }) }
        ensures err { OnErr result (self.new ≡ record self.old {
          calls = one_more self.old.calls;
          faults = one_more self.old.faults;
        }) }
    {
        self.calls = self.calls.saturating_add(1);
        if self.failing.contains(&self.calls) {
            self.faults = raised(self.faults);
            return Err(Failed);
        }
        let count = give(self.text.as_slice(), self.at, self.piece, into);
        self.at += count;
        Ok(count)
    }
}

// Copies a text from a place on to the front of a piece, at most `most` bytes, and says how many.
#[tactic(auto, using(crate::proofs::Pieces::given_front))]
fn give(text: &[u8], at: usize, most: usize, into: &mut [u8]) -> usize
    requires at { at ≤ length text.now }
    requires most { 0 < most }
    ensures count { result ≡ min (min most (length into.old)) (length text.now - at) }
    ensures front { drop at text.now ≡ take result into.new ++ drop (at + result) text.now }
    ensures behind { drop result into.new ≡ drop result into.old }
    ensures none { result ≡ 0 → 0 < length into.old → drop (at + result) text.now ≡ [] }
{
    let rest = &text[at..];
    let count = most.min(into.len()).min(rest.len());
    into[..count].copy_from_slice(&rest[..count]);
    count
}
