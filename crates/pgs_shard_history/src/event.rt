use crate::damage_answer::DamageAnswer;
use crate::scan_event::ScanEvent;
use pgs_chunk::Ask;
use pgs_copy::Damage;
use pgs_medium::Item;
use pgs_name::Family;
use sqlite_items::Items;

/// What a shard's history keeps.
#[derive(Drop)]
pub enum Event {
    /// Items were fed, numbered from one after `from` on. Those that it had already are passed over. A scan is asked for where a
    /// chunk is open.
    Fed {
        from: u64,
        items: Items<Item>,
        /// The ask. It is passed over where the shard has one of the same chunk or of a later one.
        ask: Option<Ask>,
    },
    /// The item of this number was applied.
    Applied {
        number: u64,
        /// The chunk whose scan or map it dropped, since it touches the ask's range.
        drops: Option<u64>,
    },
    /// The device failed at the next item, and its count of faults was this.
    DeviceFault {
        count: u64,
    },
    /// The device failed at a listing, and its count of faults was this.
    ListFailed {
        count: u64,
    },
    /// The scan of the newest ask made a small step.
    Scanned {
        event: ScanEvent,
    },
    /// What that scan ended with was handed.
    Handed,
    /// A copy was to be damaged.
    Damaged {
        family: Family,
        snap: u64,
        damage: Damage,
        answer: DamageAnswer,
    },
}
