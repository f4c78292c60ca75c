ghost use Rattle.std.specs.Prelude.{◌≡◌, ◌≢◌, ◌≤◌, length, IfOk, IfErr};
ghost use Rattle.pgs_cause.specs.Count.{Rose};
ghost use Rattle.pgs_chunk.specs.Limits.{usual_settings};
ghost use Rattle.pgs_texts.specs.Text.{IsTextOf};
ghost use Rattle.pgs_order.specs.Ordered.{IsOrdered};
ghost use Rattle.pgs_script.specs.Script.{script_grammar};
ghost use Rattle.pgs_world.specs.Sound.{AreAcknowledged, AreInStep, AreOrderly, AreScrubbed, IsSound};
ghost use Rattle.pgs_top.specs.Histories.{histories_of, no_histories, OfWorld};
ghost use Rattle.pgs_top.specs.Ends.{INPUT_MAX, IsDue, Due, IsWritten, Scripted, IsRefusal, IsRun};

use crate::ended::{Ended, Status};
use crate::keep::{keep, nothing};
use crate::text::text;
use pgs_chunk::Settings;
use pgs_edge::{ReadAllError, Sink, Source, read_all, write_all};
use pgs_script::{StepScript, parse_steps};
use pgs_texts::ScriptError;
use std::alloc::Global;

// The script of a text, or how the run ends without one.
#[tactic(auto, using(crate::proofs::Dues::limit_due))]
fn script_of(alloc: Global, text: &[u8]) -> Result<StepScript, Status>
    requires { length text.now ≤ INPUT_MAX }
    ensures reads { IfOk result (λ script. IsTextOf script_grammar script text.now) }
    ensures ordered { IfOk result (λ script. IsOrdered script) }
    ensures due { IfErr result (λ status. IsDue usual_settings text.now no_histories status) }
    ensures refusal { IfErr result (λ status. IsRefusal status) }
    ensures no_fault { IfErr result (λ status. status ≢ Status.ReadFault) }
{
    match parse_steps(alloc, text) {
        Ok(script) => Ok(script),
        Err(ScriptError::BadLine { line }) => Err(Status::BadLine { line }),
        Err(ScriptError::Limit { line }) => Err(Status::Limit { line }),
        Err(ScriptError::Memory) => Err(Status::Memory),
    }
}

// The script of an input, or how the run ends without one.
#[tactic(auto, using(crate::proofs::Dues::dues))]
fn read_script<S: Source>(alloc: Global, source: &mut S) -> Result<StepScript, Status>
    ensures scripted { IfOk result (λ script. Scripted (S.left source.old) script) }
    ensures ordered { IfOk result (λ script. IsOrdered script) }
    ensures due { IfErr result (λ status. Due usual_settings (S.left source.old) no_histories status) }
    ensures refusal { IfErr result (λ status. IsRefusal status) }
    ensures fault { IfErr result (λ status. status ≡ Status.ReadFault → Rose (S.faults source.old) (S.faults source.new)) }
{
    match read_all(alloc, source, 16_777_216) {
        Ok(text) => script_of(alloc, text.as_slice()),
        Err(ReadAllError::ReadFault) => Err(Status::ReadFault),
        Err(ReadAllError::TooLong) => Err(Status::Limit { line: 0 }),
        Err(ReadAllError::Memory) => Err(Status::Memory),
    }
}

// What happens in a script, written.
fn run<K: Sink>(alloc: Global, settings: Settings, script: StepScript, sink: &mut K) -> Ended
    requires ordered { IsOrdered script }
    requires stride { 1 ≤ settings.stride }
    ensures run { IsRun settings script result.kept result.status }
    ensures sound { OfWorld IsSound result.kept.world }
    ensures scrubbed { OfWorld AreScrubbed result.kept.world }
    ensures written { IsWritten settings (K.taken sink.old) (K.taken sink.new) result.kept result.status }
    ensures fault { result.status ≡ Status.WriteFault → Rose (K.faults sink.old) (K.faults sink.new) }
{
    let Ok(kept) = keep(alloc, settings, script) else {
        return Ended {
            status: Status::Memory,
            kept: nothing(alloc),
        };
    };
    let Ok(text) = text(alloc, settings, &kept) else {
        drop(kept);
        return Ended {
            status: Status::Memory,
            kept: nothing(alloc),
        };
    };
    match write_all(sink, text.as_slice()) {
        Ok(()) => Ended {
            status: Status::Ok,
            kept,
        },
        Err(_) => Ended {
            status: Status::WriteFault,
            kept,
        },
    }
}

/// Reads a script, replays it, and writes what happened. Nothing is written before the whole script was read.
#[tactic(auto, using(crate::proofs::Dues::run_due, crate::proofs::Dues::any_settings, crate::proofs::Worlds::acknowledged, crate::proofs::Worlds::in_step, crate::proofs::Worlds::orderly))]
pub fn replay<S: Source, K: Sink>(
    alloc: Global,
    settings: Settings,
    source: &mut S,
    sink: &mut K,
) -> Ended
    requires stride { 1 ≤ settings.stride }
    // How it ends is due for what was read,
    ensures due { Due settings (S.left source.old) result.kept result.status }
    // and what is written for what happened.
    ensures written { IsWritten settings (K.taken sink.old) (K.taken sink.new) result.kept result.status }
    // Of each group: every write that was answered as acknowledged stands in its log once, and each acting OSD applied it.
    ensures acknowledged { OfWorld AreAcknowledged result.kept.world }
    // The log is numbered without gaps, and no request stands in it twice.
    ensures orderly { OfWorld AreOrderly result.kept.world }
    // Members told of no more than they applied, and applied no more than they pulled of the log, in its order.
    ensures in_step { OfWorld AreInStep result.kept.world }
    // Each chunk but the open one was closed or gave way to a write, once; and the closed chunks of each scrub lie in a row, those
    // of a complete one from below all families to above them, so that they hold each position once. Writes wait only for an open
    // chunk that is firm and has their family, and nothing came into an open chunk's range after it was opened. Each map that was
    // taken is what its OSD's scan had ended with at the place of its history that the take names.
    ensures scrubbed { OfWorld AreScrubbed result.kept.world }
    // A fault comes only where the count of that end rose.
    ensures read_fault { result.status ≡ Status.ReadFault → Rose (S.faults source.old) (S.faults source.new) }
    ensures write_fault { result.status ≡ Status.WriteFault → Rose (K.faults sink.old) (K.faults sink.new) }
    ensures words { result.status ≢ Status.BadWords }
{
    match read_script(alloc, source) {
        Ok(script) => run(alloc, settings, script, sink),
        Err(status) => Ended {
            status,
            kept: nothing(alloc),
        },
    }
}
