ghost use Rattle.std.specs.Prelude.{◌≡◌, IfOk};
ghost use Rattle.std.specs.Option.{option_copied};
ghost use Rattle.pgs_select.specs.Judging as defined;

use crate::errors::{agrees, own_errors};
use pgs_facts::CopyFacts;
use pgs_find::{ShardError, ShardErrors};
use pgs_info::ObjectInfo;
use pgs_map::Entry;
use pgs_name::ObjectId;
use std::alloc::{AllocError, Global};

/// What is known of one acting OSD's copy before a copy is chosen.
#[derive(Drop)]
pub struct Judged {
    /// Its errors by itself: those that no chosen copy has a part in.
    pub errors: ShardErrors,
    /// What it tells of itself, where it has an entry and its size and attributes were told.
    pub facts: Option<CopyFacts>,
    /// Whether it may be chosen.
    pub eligible: bool,
}

impl Judged {
    /// What is known of a position's copy by its entry, if it has one.
    pub fn of(alloc: Global, id: &ObjectId, entry: Option<&Entry>) -> Result<Judged, AllocError>
        ensures { IfOk result (λ judged. judged ≡ defined.judged id.now (option_copied entry.entry)) }
    {
        let Some(entry) = entry else {
            return Ok(Judged::untold(ShardError::Missing));
        };
        if entry.stat_failed {
            return Ok(Judged::untold(ShardError::StatError));
        }
        Judged::told(alloc, id, entry)
    }

    // A copy of which nothing was told.
    fn untold(error: ShardError) -> Judged
        ensures { result ≡ defined.untold error }
    {
        let mut errors = ShardErrors::none();
        errors.note(error, true);
        Judged {
            errors,
            facts: None,
            eligible: false,
        }
    }

    // A copy whose size and attributes were told.
    fn told(alloc: Global, id: &ObjectId, entry: &Entry) -> Result<Judged, AllocError>
        ensures { IfOk result (λ judged. judged ≡ defined.judged_told id.now entry.now) }
    {
        let facts = CopyFacts::of(alloc, entry)?;
        let errors = own_errors(id, entry, &facts);
        let eligible = errors.is_empty() && agrees(entry, facts.info.as_ref());
        Ok(Judged {
            errors,
            facts: Some(facts),
            eligible,
        })
    }

    /// The info that it tells, if it tells one.
    pub fn info(&self) -> Option<&ObjectInfo>
        ensures { option_copied result ≡ defined.info_told self.now }
    {
        match &self.facts {
            Some(facts) => facts.info.as_ref(),
            None => None,
        }
    }
}
