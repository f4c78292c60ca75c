ghost use Rattle.std.specs.Prelude.{◌≡◌};

use pgs_bytes::Bytes;
use std::alloc::AllocError;

/// The words SPACE KEY NAME of a line: a dash stands for an empty space or key.
#[derive(Drop)]
pub struct Object {
    /// The namespace, of at most 64 bytes.
    pub space: Bytes,
    /// The locator key, of at most 255 bytes.
    pub key: Bytes,
    /// The name, of 1 to 255 bytes.
    pub name: Bytes,
}

impl Clone for Object {
    ghost is_clone = { λ a b. b ≡ a };

    fn clone(&self) -> Result<Object, AllocError> {
        let space = self.space.clone()?;
        let key = self.key.clone()?;
        let name = self.name.clone()?;
        Ok(Object { space, key, name })
    }
}
