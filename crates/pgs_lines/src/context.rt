ghost use Rattle.std.specs.Prelude.{◌≡◌, IfOk};
ghost use Rattle.pgs_lines.specs.Contexts as contexts;

use pgs_request::{SnapContext, Snaps};
use std::alloc::{AllocError, Global};

/// The word CTX of a write. A dash is kept apart from the word `0`, which means the same.
#[derive(Drop)]
pub enum Context {
    /// `-`: the seq 0, and no snaps.
    Dash,
    /// `SEQ`, or `SEQ:S,S` with one or more snaps.
    Given {
        /// What is given.
        context: SnapContext,
    },
}

impl Context {
    /// The context that the word stands for.
    pub fn meant(&self, alloc: Global) -> Result<SnapContext, AllocError>
        ensures { IfOk result (λ c. c ≡ contexts.meant self.now) }
    {
        match self {
            Context::Dash => Ok(SnapContext {
                seq: 0,
                snaps: Snaps::new(alloc),
            }),
            Context::Given { context } => context.clone(),
        }
    }
}
