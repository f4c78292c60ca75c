ghost use Rattle.std.specs.Prelude.{◌≡◌, IfOk};

use pgs_medium::Item;
use sqlite_items::Items;
use std::alloc::{AllocError, Global};

/// Copies of items, in their order.
pub fn copies(alloc: Global, items: &[Item]) -> Result<Items<Item>, AllocError>
    ensures { IfOk result (λ copies. copies ≡ items.now) }
{
    let mut copies = Items::new(alloc);
    for item in items {
        let item = item.copied(alloc)?;
        copies.push(item)?;
    }
    Ok(copies)
}
