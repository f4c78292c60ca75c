ghost use Rattle.std.specs.Prelude.{◌≡◌, ◌++◌, ◌∷◌, [], OnOk};
ghost use Rattle.std.specs.Fmt.{decimal};
ghost use Rattle.pgs_lines.specs.Contexts as contexts;
ghost use Rattle.pgs_done.specs.Contexts as printed;
ghost use Rattle.pgs_done.specs.Words.{behind};

use super::words::{push_number, push_word};
use pgs_request::SnapContext;
use std::alloc::{AllocError, Global};

// Appends a mark and a number.
#[tactic(auto, using(crate::proofs::Behind::joins))]
fn push_marked(alloc: Global, mark: u8, number: u64, out: &mut Vec<u8>) -> Result<(), AllocError>
    ensures { OnOk result (out.new.items ≡ out.old.items ++ mark ∷ decimal number) }
{
    out.push(mark)?;
    let text = format!(in alloc; "{number}")?;
    out.extend_from_slice(text.as_bytes())
}

// Appends snaps, a colon before the first and a comma before each other.
fn push_snaps(alloc: Global, snaps: &[u64], out: &mut Vec<u8>) -> Result<(), AllocError>
    ensures { OnOk result (out.new.items ≡ out.old.items ++ printed.marked 58 snaps.now) }
{
    let mut mark = b':';
    for snap in snaps {
        push_marked(alloc, mark, *snap, out)?;
        mark = b',';
    }
    Ok(())
}

#[tactic(auto, using(crate::proofs::Behind::joins, crate::proofs::Marked::given_printed))]
fn push_given(alloc: Global, context: &SnapContext, out: &mut Vec<u8>) -> Result<(), AllocError>
    ensures { OnOk result (out.new.items ≡ out.old.items ++ behind ((contexts.given).spell context.now ∷ [])) }
{
    push_number(alloc, context.seq, out)?;
    push_snaps(alloc, context.snaps.as_slice(), out)
}

/// Appends the word of a context, behind a space.
pub fn push_context(
    alloc: Global,
    context: &SnapContext,
    out: &mut Vec<u8>,
) -> Result<(), AllocError>
    ensures { OnOk result (out.new.items ≡ out.old.items ++ behind ((contexts.context).spell (printed.as_printed context.now) ∷ [])) }
{
    if context.seq == 0 && context.snaps.as_slice().is_empty() {
        return push_word(b"-", out);
    }
    push_given(alloc, context, out)
}
