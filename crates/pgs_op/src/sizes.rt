ghost use Rattle.std.specs.Prelude.{◌≡◌, ◌<◌, ◌^◌};
ghost use Rattle.pgs_op.specs.Effects as effects;

use pgs_request::Op;

/// The size of the head's data after an operation, by the size before.
pub fn size_after(op: &Op, size: u64) -> u64
    ensures { result ≡ effects.size_after op.now size }
{
    match op {
        Op::Full { payload } => payload.size(),
        Op::Write { at, payload } => written_size(*at, payload.size(), size),
        Op::Truncate { size } => u64::from(*size),
        Op::Remove => 0,
        _ => size,
    }
}

// The size of data after a piece of so many bytes was put at a place.
fn written_size(at: u32, piece: u64, size: u64) -> u64
    requires { piece < 2 ^ 63 }
    ensures { result ≡ effects.written_size at piece size }
{
    if piece == 0 {
        return size;
    }
    size.max(u64::from(at) + piece)
}
