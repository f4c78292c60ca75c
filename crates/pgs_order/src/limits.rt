//! The limits of what a step gives.
ghost use Rattle.std.specs.Prelude.{◌≡◌, nat_lt, length};
ghost use Rattle.pgs_lines.specs.Contexts.{meant};
ghost use Rattle.pgs_order.specs.Order as order;

use pgs_lines::{Basic, Context, Damage, Step};
use pgs_request::{Op, Payload};

// Whether a value has more bytes than one may have.
fn is_long(payload: &Payload) -> bool
    ensures { result ≡ order.is_long payload.now }
{
    payload.size() > 65_536
}

// Whether data has more bytes than an object's may have.
fn is_large(payload: &Payload) -> bool
    ensures { result ≡ order.is_large payload.now }
{
    payload.size() > 4_194_304
}

fn op_passes(op: &Op) -> bool
    ensures { result ≡ order.op_passes op.now }
{
    match op {
        Op::SetAttr { payload, .. } => is_long(payload),
        Op::SetOmap { payload, .. } => is_long(payload),
        Op::SetHeader { payload } => is_long(payload),
        _ => false,
    }
}

fn damage_passes(damage: &Damage) -> bool
    ensures { result ≡ order.damage_passes damage.now }
{
    match damage {
        Damage::SetData { payload } => is_large(payload),
        Damage::SetAttr { payload, .. } => is_long(payload),
        Damage::SetOmap { payload, .. } => is_long(payload),
        Damage::SetHeader { payload } => is_long(payload),
        _ => false,
    }
}

// Whether a context has more snaps than one may have.
fn is_full(context: &Context) -> bool
    ensures { result ≡ nat_lt 64 (length (meant context.now).snaps) }
{
    match context {
        Context::Dash => false,
        Context::Given { context } => context.snaps.as_slice().len() > 64,
    }
}

fn basic_passes(basic: &Basic) -> bool
    ensures { result ≡ order.basic_passes basic.now }
{
    match basic {
        Basic::Write { context, op, .. } => is_full(context) || op_passes(op),
        Basic::Damage { damage, .. } => damage_passes(damage),
        _ => false,
    }
}

/// Whether a step passes a limit: a context of over 64 snaps, a value of over 65,536 bytes, or data of over 4,194,304 bytes
/// that damage puts in place.
pub fn step_passes(step: &Step) -> bool
    ensures { result ≡ order.step_passes step.now }
{
    match step {
        Step::Basic { basic } => basic_passes(basic),
        _ => false,
    }
}
