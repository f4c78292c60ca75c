use crate::begin_answer::BeginAnswer;
use crate::close_answer::CloseAnswer;
use crate::fault_answer::FaultAnswer;
use crate::interval_answer::IntervalAnswer;
use crate::open_answer::OpenAnswer;
use crate::reserve_answer::ReserveAnswer;
use crate::take_answer::TakeAnswer;
use crate::write_answer::WriteAnswer;
use pgs_chunk::Kind;
use pgs_map::ScrubMap;
use pgs_name::ObjectId;
use pgs_op::Write;
use pgs_request::{ReqId, Version};
use pgs_slots::Holder;
use sqlite_items::Items;

/// A kept event of a group. Answers that change nothing and are asked for again are no events.
#[derive(Drop)]
pub enum Event {
    /// A client's write was answered.
    Submit {
        /// The write.
        write: Write,
        /// Its answer.
        answer: WriteAnswer,
    },
    /// A write that waited was taken up, as no chunk was open any more.
    Admit {
        /// The write.
        write: Write,
        /// Its answer.
        answer: WriteAnswer,
    },
    /// A client learned for the first time that its write is acknowledged.
    Collect {
        /// The request.
        id: ReqId,
        /// Its version.
        version: Version,
    },
    /// A member took the items of the log that it didn't have, or learned of the open chunk.
    Pull {
        /// The member.
        osd: u32,
        /// The number of the last item that it had, or 0.
        from: u64,
        /// That of the last item that it then had.
        to: u64,
        /// The number of the open chunk, where the member learned of it for the first time.
        asked: Option<u64>,
    },
    /// A member told how far it has applied the log, and that is farther than it had told.
    Tell {
        /// The member.
        osd: u32,
        /// The number of the last applied item.
        applied: u64,
    },
    /// A scrub was to begin.
    Begin {
        /// What it was to look at.
        kind: Kind,
        /// Its answer.
        answer: BeginAnswer,
    },
    /// A scrub claimed a slot of an OSD.
    Reserve {
        /// The scrub.
        serial: u64,
        /// The OSD.
        osd: u32,
        /// What the OSD's slots held, where none was free.
        denied: Option<Items<Holder>>,
        /// Its answer.
        answer: ReserveAnswer,
    },
    /// A chunk of a scrub was to be opened.
    Open {
        /// The scrub.
        serial: u64,
        /// Positions of the primary, from where the chunk begins.
        listed: Items<ObjectId>,
        /// Its answer.
        answer: OpenAnswer,
    },
    /// A member gave its map of a chunk.
    Take {
        /// How many events the member's shard had when the map was whole.
        place: u64,
        /// The map.
        map: ScrubMap,
        /// Its answer.
        answer: TakeAnswer,
    },
    /// A chunk was to be closed, and no map was missing.
    Close {
        /// Its number.
        chunk: u64,
        /// Its answer.
        answer: CloseAnswer,
    },
    /// A device failed a call for a scrub.
    Fault {
        /// The scrub.
        serial: u64,
        /// The chunk that was scanned, or 0 where positions were listed.
        chunk: u64,
        /// The device's OSD.
        osd: u32,
        /// How many calls of the device had failed.
        count: u64,
        /// Its answer.
        answer: FaultAnswer,
    },
    /// Other members were to act.
    Interval {
        /// Those members, in order; the first is the primary.
        acting: Items<u32>,
        /// Its answer.
        answer: IntervalAnswer,
    },
}
