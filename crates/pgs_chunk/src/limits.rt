ghost use Rattle.std.specs.Prelude.{◌≡◌, ◌/◌, ◌^◌};
ghost use Rattle.pgs_chunk.specs.Limits as defined;

/// How many positions a chunk has, and how often it gives way to writes.
#[derive(Clone, Copy)]
pub struct Limits {
    /// The least limit of positions.
    pub chunk_min: u32,
    /// The limit of positions where nothing was preempted.
    pub chunk_max: u32,
    /// How many preemptions a scrub allows.
    pub preemptions: u32,
}

impl Limits {
    /// The limits of a script that sets none.
    pub fn usual() -> Limits
        ensures { result ≡ defined.usual_limits }
    {
        Limits {
            chunk_min: 5,
            chunk_max: 25,
            preemptions: 5,
        }
    }
}

/// How many positions a chunk may have after so many preemptions of its scrub.
pub fn limit_after(limits: &Limits, preemptions: u32) -> u32
    ensures { result ≡ defined.limit_after limits.now preemptions }
{
    let halved = halve(limits.chunk_max, preemptions);
    if limits.chunk_min < halved {
        halved
    } else {
        limits.chunk_min
    }
}

// A number halved so often, rounded down each time.
#[tactic(auto, using(crate::proofs::Halves::no_halves))]
fn halve(number: u32, times: u32) -> u32
    ensures { result ≡ number / 2 ^ times }
{
    if times < u32::BITS {
        number >> times
    } else {
        0
    }
}
