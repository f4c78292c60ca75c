ghost use Rattle.std.specs.Prelude.{◌≡◌, ◌++◌, OnOk};
ghost use Rattle.pgs_done.specs.Words.{behind};
ghost use Rattle.pgs_done.specs.Ranges as ranges;

use super::objects::push_object;
use super::words::push_word;
use crate::bound::Bound;
use crate::range::Range;
use std::alloc::AllocError;

#[tactic(auto, using(crate::proofs::Behind::joins))]
fn push_bound(bound: &Bound, out: &mut Vec<u8>) -> Result<(), AllocError>
    ensures { OnOk result (out.new.items ≡ out.old.items ++ behind (ranges.bound_words bound.now)) }
{
    match bound {
        Bound::Min => push_word(b"min", out),
        Bound::At { object } => {
            push_word(b"at", out)?;
            push_object(object, out)
        }
        Bound::Max => push_word(b"max", out),
    }
}

/// Appends the words of a range, behind a space each.
#[tactic(auto, using(crate::proofs::Behind::spreads))]
pub fn push_range(range: &Range, out: &mut Vec<u8>) -> Result<(), AllocError>
    ensures { OnOk result (out.new.items ≡ out.old.items ++ behind (ranges.range_words range.now)) }
{
    push_word(b"from", out)?;
    push_bound(&range.from, out)?;
    push_word(b"to", out)?;
    push_bound(&range.to, out)
}
