ghost use Rattle.std.specs.Prelude.{◌≡◌};
ghost use Rattle.std.specs.Option.{option_copied};
ghost use Rattle.pgs_map.specs.Entries.{AreAscending, entry_at};

use crate::entry::Entry;
use crate::searching::find_entry;
use pgs_name::ObjectId;
use pgs_range::FamilyRange;
use sqlite_items::Items;

/// What a member answers where it is asked for a range.
#[derive(Drop)]
pub struct ScrubMap {
    /// The member's number.
    pub osd: u32,
    /// The number of the scrub.
    pub serial: u64,
    /// The number of the chunk.
    pub chunk: u64,
    /// The number of the item that had to be applied first.
    pub needed: u64,
    /// The number of the item that was applied last.
    pub applied: u64,
    /// The families that it was asked for.
    pub range: FamilyRange,
    /// The stored copies of the range, in the order of their positions.
    pub entries: Items<Entry>,
}

impl ScrubMap {
    /// The entry of a position, if there is one. It takes no memory, and the time of a binary search.
    pub fn entry(&self, id: &ObjectId) -> Option<&Entry>
        ensures { AreAscending self.now.entries → option_copied result ≡ entry_at id.now self.now.entries }
    {
        find_entry(self.entries.as_slice(), id)
    }
}
