ghost use Rattle.std.specs.Prelude.{◌≡◌, reverse};
ghost use Rattle.pgs_op_log.specs.Logs.{AreNumbered, newer};

use pgs_medium::Item;

/// The items with higher numbers than `from`, of items in the order of their numbers.
#[tactic(auto, using(crate::proofs::Newer::tail_is))]
pub fn tail(items: &[Item], from: u64) -> &[Item]
    requires { AreNumbered (reverse items.now) }
    ensures { result.now ≡ reverse (newer from (reverse items.now)) }
{
    let at = from.min(items.len() as u64) as usize;
    &items[at..]
}
