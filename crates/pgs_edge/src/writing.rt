ghost use Rattle.std.specs.Prelude.{◌<◌, ◌≤◌, length, take, IfErr, OnOk, OnErr};
ghost use Rattle.std.specs.Io.KnownBytes.{Appends};
ghost use Rattle.pgs_cause.specs.Count.{Rose};

use crate::sink::Sink;
use pgs_cause::Failed;

/// A sink did not take all bytes. It took the first `taken` of them.
#[derive(Clone, Copy, Debug)]
pub struct WriteFault {
    pub taken: usize,
}

/// Writes all bytes to a sink, in as many calls as it takes. It needs no memory.
#[tactic(auto, using(crate::proofs::Pieces::appends_front))]
pub fn write_all<K: Sink>(sink: &mut K, from: &[u8]) -> Result<(), WriteFault>
    ensures whole { OnOk result (Appends (K.taken sink.old) (K.taken sink.new) from.now) }
    ensures front { IfErr result (λ fault.
        Appends (K.taken sink.old) (K.taken sink.new) (take fault.taken from.now)) }
    ensures short { IfErr result (λ fault. fault.taken < length from.now) }
    ensures fault { OnErr result (Rose (K.faults sink.old) (K.faults sink.new)) }
    ensures later { K.faults sink.old ≤ K.faults sink.new }
{
    let mut taken = 0;
    while taken < from.len() {
        match sink.write(&from[taken..]) {
            Ok(0) => return Err(WriteFault { taken }),
            Ok(count) => taken += count,
            Err(Failed) => return Err(WriteFault { taken }),
        }
    }
    Ok(())
}
