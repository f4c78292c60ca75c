ghost use Rattle.std.specs.Prelude.{◌≡◌};
ghost use Rattle.pgs_done.specs.Done.{is_listed};

use crate::apply_answer::ApplyAnswer;
use crate::begin_answer::BeginAnswer;
use crate::claim_answer::ClaimAnswer;
use crate::close_answer::CloseAnswer;
use crate::collect_answer::CollectAnswer;
use crate::damage_answer::DamageAnswer;
use crate::interval_answer::IntervalAnswer;
use crate::job_answer::JobAnswer;
use crate::open_answer::OpenAnswer;
use crate::pick_answer::PickAnswer;
use crate::release_answer::ReleaseAnswer;
use crate::scan_answer::ScanAnswer;
use crate::take_answer::TakeAnswer;
use crate::unjob_answer::UnjobAnswer;
use crate::write_answer::WriteAnswer;
use pgs_bytes::Bytes;
use pgs_lines::{Damage, Kind, Object, Snap};
use pgs_request::{Op, SnapContext};
use sqlite_items::Items;

/// A thing that was done, with its answer. Each is one printed line.
#[derive(Drop)]
pub enum Done {
    /// A client wrote.
    Write {
        /// The client.
        client: u32,
        /// The client's number for this write.
        serial: u32,
        /// The object.
        object: Object,
        /// The snapshots that the client knew of.
        context: SnapContext,
        /// What was done to its head.
        op: Op,
        /// The answer.
        answer: WriteAnswer,
    },
    /// A write that was parked was to be admitted.
    Admit {
        /// The client.
        client: u32,
        /// The client's number for the write.
        serial: u32,
        /// The answer.
        answer: WriteAnswer,
    },
    /// A client asked what became of its write.
    Collect {
        /// The group.
        group: u32,
        /// The client.
        client: u32,
        /// The client's number for the write.
        serial: u32,
        /// The answer.
        answer: CollectAnswer,
    },
    /// An OSD was sent the items of the log between two numbers.
    Pull {
        /// The group.
        group: u32,
        /// The OSD.
        osd: u32,
        /// The number of the last item that it was sent before.
        from: u64,
        /// The number of the last item that it was sent now.
        to: u64,
        /// The chunk whose map it was asked for.
        asked: Option<u64>,
    },
    /// An OSD stored the next item, or didn't.
    Apply {
        /// The group.
        group: u32,
        /// The OSD.
        osd: u32,
        /// The answer.
        answer: ApplyAnswer,
    },
    /// An OSD told the group how far it stored.
    Tell {
        /// The group.
        group: u32,
        /// The OSD.
        osd: u32,
        /// The number of the last item that it stored.
        applied: u64,
    },
    /// A stored copy was to change.
    Damage {
        /// The group.
        group: u32,
        /// The OSD whose copy it is.
        osd: u32,
        /// The object.
        object: Object,
        /// The head or a clone.
        snap: Snap,
        /// The change.
        damage: Damage,
        /// The answer.
        answer: DamageAnswer,
    },
    /// A scrub was to begin.
    Begin {
        /// The group.
        group: u32,
        /// What the scrub looks at.
        kind: Kind,
        /// The answer.
        answer: BeginAnswer,
    },
    /// The next chunk of a scrub was to be opened.
    Open {
        /// The group.
        group: u32,
        /// The answer.
        answer: OpenAnswer,
    },
    /// An OSD took one step of its scan of the chunk, or didn't.
    Scan {
        /// The group.
        group: u32,
        /// The OSD.
        osd: u32,
        /// The answer.
        answer: ScanAnswer,
    },
    /// The map that an OSD made of the chunk was to be taken.
    Take {
        /// The group.
        group: u32,
        /// The OSD.
        osd: u32,
        /// The answer.
        answer: TakeAnswer,
    },
    /// The last chunk of a scrub was to be closed.
    Close {
        /// The group.
        group: u32,
        /// The answer.
        answer: CloseAnswer,
    },
    /// The acting members of a group were to change.
    Interval {
        /// The group.
        group: u32,
        /// The OSDs that were to act. The first is the primary.
        acting: Items<u32>,
        /// The answer.
        answer: IntervalAnswer,
    },
    /// A scrub was to claim a slot of the OSD that comes next.
    Claim {
        /// The group.
        group: u32,
        /// The answer.
        answer: ClaimAnswer,
    },
    /// A slot was to be given back that an ended scrub holds.
    Release {
        /// The group.
        group: u32,
        /// The OSD.
        osd: u32,
        /// The answer.
        answer: ReleaseAnswer,
    },
    /// A scrub was to be put into the queue.
    Job {
        /// The group.
        group: u32,
        /// What the scrub looks at.
        kind: Kind,
        /// Its rank.
        rank: u8,
        /// The moment from which on it may be picked.
        moment: u32,
        /// The answer.
        answer: JobAnswer,
    },
    /// A scrub was to be taken out of the queue.
    Unjob {
        /// The group.
        group: u32,
        /// The answer.
        answer: UnjobAnswer,
    },
    /// The next scrub was to be picked from the queue.
    Pick {
        /// The moment.
        moment: u32,
        /// The answer.
        answer: PickAnswer,
    },
    /// What was found was listed. Its line is the list.
    Listed {
        /// The list, without a line end.
        text: Bytes,
    },
}

impl Done {
    /// Whether it is a list.
    pub fn is_listed(&self) -> bool
        ensures { result ≡ is_listed self.now }
    {
        match self {
            Done::Listed { .. } => true,
            _ => false,
        }
    }
}
