ghost use Rattle.std.specs.Prelude.{◌≡◌, ◌++◌, ◌∷◌, [], OnOk};
ghost use Rattle.pgs_lines.specs.Objects as objects;
ghost use Rattle.pgs_done.specs.Words.{behind};
ghost use Rattle.pgs_done.specs.Ranges.{as_kept, object_words};

use super::words::{push_dashed, push_word};
use pgs_lines::Object;
use std::alloc::AllocError;

// Appends the word of a key.
fn push_key(object: &Object, out: &mut Vec<u8>) -> Result<(), AllocError>
    ensures { OnOk result (out.new.items ≡ out.old.items ++ behind ((objects.key).spell (as_kept object.now).key ∷ [])) }
{
    if object.key == object.name {
        return push_word(b"-", out);
    }
    push_dashed(&object.key, out)
}

/// Appends the words SPACE KEY NAME, behind a space each.
#[tactic(auto, using(crate::proofs::Behind::joins))]
pub fn push_object(object: &Object, out: &mut Vec<u8>) -> Result<(), AllocError>
    ensures { OnOk result (out.new.items ≡ out.old.items ++ behind (object_words (as_kept object.now))) }
{
    push_dashed(&object.space, out)?;
    push_key(object, out)?;
    push_word(object.name.as_slice(), out)
}
