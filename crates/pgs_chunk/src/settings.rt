ghost use Rattle.std.specs.Prelude.{◌≡◌};
ghost use Rattle.pgs_chunk.specs.Limits as defined;

use crate::limits::Limits;

/// How a group is scrubbed.
#[derive(Clone, Copy)]
pub struct Settings {
    pub limits: Limits,
    /// How many bytes are read at a time.
    pub stride: u32,
    /// Whether only the lists of what is found are printed, and no single step.
    pub lists: bool,
}

impl Settings {
    /// The settings of a script that sets nothing.
    pub fn usual() -> Settings
        ensures { result ≡ defined.usual_settings }
    {
        Settings {
            limits: Limits::usual(),
            stride: 524288,
            lists: false,
        }
    }
}
