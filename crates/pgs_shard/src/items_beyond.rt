ghost use Rattle.std.specs.Prelude.{◌≡◌, IfOk};
ghost use Rattle.pgs_shard_history.specs.Feeds.{beyond};

use pgs_medium::Item;
use std::alloc::{AllocError, Global};

// Copies of the items with a number above the last.
#[tactic(auto, using(pgs_shard_history::proofs::Feeds::beyond_more))]
pub fn copied_beyond(alloc: Global, last: u64, items: &[Item]) -> Result<Vec<Item>, AllocError>
    ensures { IfOk result (λ copies. copies.items ≡ beyond last items.now) }
{
    let mut copies = Vec::new(alloc);
    for item in items {
        if last < item.number {
            copies.push(item.copied(alloc)?)?;
        }
    }
    Ok(copies)
}
