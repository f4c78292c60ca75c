ghost use Rattle.std.specs.Prelude.{◌≡◌, ◌≢◌, ◌↔◌, map, string_bytes, MatchBool};
ghost use Rattle.pgs_cause.specs.Count.{Rose};
ghost use Rattle.pgs_chunk.specs.Limits.{usual_settings};
ghost use Rattle.pgs_world.specs.Sound.{AreAcknowledged, AreInStep, AreOrderly, AreScrubbed};
ghost use Rattle.pgs_top.specs.Histories.{OfWorld};
ghost use Rattle.pgs_top.specs.Ends.{Due, IsWritten, replay_words};

use crate::ended::{Ended, Status};
use crate::keep::nothing;
use crate::replaying::replay;
use pgs_chunk::Settings;
use pgs_edge::{Sink, Source};
use std::alloc::Global;

// Whether the words are the one word `replay`.
fn is_replay(words: &[String]) -> bool
    ensures { MatchBool result (map string_bytes words.now ≡ replay_words) (map string_bytes words.now ≢ replay_words) }
{
    let [word] = words else {
        return false;
    };
    word.as_bytes() == b"replay".as_slice()
}

/// What the program does with the words of its command line, an input and an output.
#[tactic(auto, using(crate::proofs::Dues::words_due))]
pub fn top<S: Source, K: Sink>(
    alloc: Global,
    words: &[String],
    source: &mut S,
    sink: &mut K,
) -> Ended
    ensures words { (result.status ≡ Status.BadWords) ↔ (map string_bytes words.now ≢ replay_words) }
    // How it ends is due for what was read,
    ensures due { Due usual_settings (S.left source.old) result.kept result.status }
    // and what is written for what happened.
    ensures written { IsWritten usual_settings (K.taken sink.old) (K.taken sink.new) result.kept result.status }
    // Of each group: every write that was answered as acknowledged stands in its log once, and each acting OSD applied it.
    ensures acknowledged { OfWorld AreAcknowledged result.kept.world }
    // The log is numbered without gaps, and no request stands in it twice.
    ensures orderly { OfWorld AreOrderly result.kept.world }
    // Members told of no more than they applied, and applied no more than they pulled of the log, in its order.
    ensures in_step { OfWorld AreInStep result.kept.world }
    // Each chunk but the open one was closed or gave way to a write, once; and the closed chunks of each scrub lie in a row, those
    // of a complete one from below all families to above them, so that they hold each position once. Writes wait only for an open
    // chunk that is firm and has their family, and nothing came into an open chunk's range after it was opened. Each map that was
    // taken is what its OSD's scan had ended with at the place of its history that the take names.
    ensures scrubbed { OfWorld AreScrubbed result.kept.world }
    // A fault comes only where the count of that end rose.
    ensures read_fault { result.status ≡ Status.ReadFault → Rose (S.faults source.old) (S.faults source.new) }
    ensures write_fault { result.status ≡ Status.WriteFault → Rose (K.faults sink.old) (K.faults sink.new) }
{
    if is_replay(words) {
        return replay(alloc, Settings::usual(), source, sink);
    }
    Ended {
        status: Status::BadWords,
        kept: nothing(alloc),
    }
}
