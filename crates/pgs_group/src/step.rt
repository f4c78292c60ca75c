use crate::admitted::Admitted;
use crate::close_told::CloseTold;
use crate::pulled::Pulled;
use pgs_chunk::Kind;
use pgs_history::{
    BeginAnswer, CollectAnswer, FaultAnswer, IntervalAnswer, OpenAnswer, ReserveAnswer, TakeAnswer,
    WriteAnswer,
};
use pgs_map::ScrubMap;
use pgs_name::ObjectId;
use pgs_op::Write;
use pgs_request::ReqId;
use pgs_slots::Holder;
use sqlite_items::Items;

/// What is asked of a group.
#[derive(Drop)]
pub enum Step {
    /// A client sends a write.
    Submit {
        write: Write,
    },
    /// The write that waits first is taken up, where no chunk is open.
    Admit,
    /// A client asks for the outcome of a request.
    Collect {
        id: ReqId,
    },
    /// A member pulls the log.
    Pull {
        osd: u32,
    },
    /// A member tells how far it has applied the log.
    Tell {
        osd: u32,
        applied: u64,
    },
    /// A scrub is to begin.
    Begin {
        kind: Kind,
    },
    /// A scrub claims a slot of an OSD, where one is free; else these scrubs hold them.
    Reserve {
        serial: u64,
        osd: u32,
        denied: Option<Items<Holder>>,
    },
    /// A chunk of a scrub is to be opened; the positions are the primary's.
    Open {
        serial: u64,
        listed: Items<ObjectId>,
    },
    /// A member gives its map of a chunk, made at this place of its shard's events.
    Take {
        place: u64,
        map: ScrubMap,
    },
    /// A chunk is to be closed.
    Close {
        chunk: u64,
    },
    /// A device failed a call for a scrub: of a chunk's scan, or of a listing where the chunk is 0.
    Fault {
        serial: u64,
        chunk: u64,
        osd: u32,
        count: u64,
    },
    /// Other members are to act.
    Interval {
        acting: Items<u32>,
    },
}

/// What a group answers to a step of the same kind.
#[derive(Drop)]
pub enum Answer {
    Submit { answer: WriteAnswer },
    Admit { admitted: Option<Admitted> },
    Collect { answer: CollectAnswer },
    Pull { pulled: Pulled },
    Tell { applied: u64 },
    Begin { answer: BeginAnswer },
    Reserve { answer: ReserveAnswer },
    Open { answer: OpenAnswer },
    Take { answer: TakeAnswer },
    Close { answer: CloseTold },
    Fault { answer: FaultAnswer },
    Interval { answer: IntervalAnswer },
}
