ghost use Rattle.std.specs.Prelude.{◌≡◌};
ghost use Rattle.pgs_scan.specs.Seen as seen;

use pgs_copy::Pairs;
use pgs_map::Entry;
use pgs_name::ObjectId;
use std::alloc::Global;

/// The entry of a copy of which the size or the attributes couldn't be read. It takes no memory.
pub fn unread_entry(alloc: Global, id: ObjectId) -> Entry
    ensures { result ≡ seen.unread_entry id }
{
    Entry {
        id,
        stat_failed: true,
        read_failed: false,
        size: 0,
        attrs: Pairs::new(alloc),
        data_digest: None,
        omap_digest: None,
    }
}
