ghost use Rattle.std.specs.Prelude.{◌≤◌};
ghost use Rattle.pgs_op.specs.declared.limits.TheConstants.{STORE_MAX};

use crate::limits::STORE_MAX;

/// How many bytes the copies of a clean store hold, which is never more than they may.
#[derive(Clone, Copy, Drop)]
pub struct Held {
    pub bytes: u64,
    pub ghost within: { bytes ≤ STORE_MAX },
}
