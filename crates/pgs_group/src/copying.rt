ghost use Rattle.std.specs.Prelude.{◌≡◌, IfOk};

use pgs_op::Write;
use std::alloc::AllocError;

/// A copy of a write.
pub fn copy_of(write: &Write) -> Result<Write, AllocError>
    ensures { IfOk result (λ copy. copy ≡ write.now) }
{
    let family = write.family.clone()?;
    let context = write.context.clone()?;
    let op = write.op.clone()?;
    Ok(Write {
        id: write.id,
        family,
        context,
        op,
    })
}
