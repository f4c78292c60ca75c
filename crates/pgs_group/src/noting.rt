//! What ended scrubs and chunks, noted where there is room.
ghost use Rattle.std.specs.Prelude.{◌≡◌, ◌<◌, vec_len, vec_capacity, if◌then◌else◌};
ghost use Rattle.pgs_history.specs.Scrubs.{with_fate};
ghost use Rattle.pgs_history.specs.Causes.{where_ended, with_cause};
ghost use Rattle.pgs_history.specs.declared.end.End.TheVariants.{Completed};

use pgs_history::{Cause, Chunk, End, Fate};

/// One fate more, where a chunk is open.
pub fn note_fate(fates: &mut Vec<Fate>, now: &Option<Chunk>, fate: Fate)
    requires { vec_len fates.old < vec_capacity fates.old }
    ensures { fates.new.items ≡ with_fate now.now fate fates.old.items }
{
    if now.is_some() {
        fates.push_reserved(fate);
    }
}

/// One cause more, where a scrub ends.
pub fn note_cause(causes: &mut Vec<Cause>, ends: Option<u64>, cause: Cause)
    requires { vec_len causes.old < vec_capacity causes.old }
    ensures { causes.new.items ≡ where_ended ends cause.place cause.end causes.old.items }
{
    if ends.is_some() {
        causes.push_reserved(cause);
    }
}

/// One cause more, where a scrub is complete with a chunk.
pub fn note_completed(causes: &mut Vec<Cause>, completes: bool, place: u64, chunk: u64)
    requires { vec_len causes.old < vec_capacity causes.old }
    ensures { causes.new.items ≡ (if completes then with_cause place (Completed chunk) causes.old.items else causes.old.items) }
{
    if completes {
        let end = End::Completed { chunk };
        causes.push_reserved(Cause { place, end });
    }
}
