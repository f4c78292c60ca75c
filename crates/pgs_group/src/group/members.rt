//! What members and clients ask for of a group.
ghost use Rattle.std.specs.Prelude.{◌≡◌, ◌||◌, nat_lt, false, option_map, is_some, IfOk, OnOk, OnErr};
ghost use Rattle.pgs_gate.specs.Waits.{is_parked};
ghost use Rattle.pgs_op_log.specs.Logs.{version_in};
ghost use Rattle.pgs_history.specs.Log.{ids};
ghost use Rattle.pgs_history.specs.Scrubs.{open_chunk};
ghost use Rattle.pgs_history.specs.Parked.{parked, refused, is_admitting};
ghost use Rattle.pgs_history.specs.Answers.{behind, where_so, unlogged, collect_found, collect_answer, tell_answer, ask, new_ask};
ghost use Rattle.pgs_history.specs.After.{after_collect, after_pull, after_tell};
ghost use Rattle.pgs_history.specs.Legal.{IsLegal};
ghost use Rattle.pgs_group.specs.Steps.{pull_answer};

use super::Group;
use crate::behind::first_behind;
use crate::pulled::Pulled;
use crate::refusals::refusal_of;
use pgs_chunk::Ask;
use pgs_history::{CollectAnswer, Event};
use pgs_medium::Item;
use pgs_request::{Refusal, ReqId};
use sqlite_items::Items;
use std::alloc::AllocError;

impl Group {
    // The number of the open chunk, for an OSD that acts and wasn't asked for it before.
    fn newly(&self, osd: u32) -> Option<u64>
        ensures { result ≡ new_ask self.now.made self.now.past osd }
    {
        if !self.acts(osd) {
            return None;
        }
        self.scrubs.newly(self.given.asked(osd))
    }

    // What an OSD is asked for.
    fn ask(&self, osd: u32) -> Result<Option<Ask>, AllocError>
        ensures { IfOk result (λ given. given ≡ ask self.now.made self.now.past osd) }
    {
        if !self.acts(osd) {
            return Ok(None);
        }
        self.scrubs.ask()
    }

    /// Tells a member the items of the log that it didn't pull yet, and what it is asked for.
    #[tactic(auto, using(pgs_history::proofs::Legal::legal_pull))]
    pub fn pull(&mut self, osd: u32) -> Result<Pulled, AllocError>
        requires idle { is_admitting self.old.past ≡ false }
        ensures answer { IfOk result (λ p. p ≡ pull_answer self.old.made self.old.past osd) }
        ensures kept { OnOk result (self.new ≡ record self.old { past = after_pull self.old.made self.old.past osd }) }
        ensures err { OnErr result (self.new ≡ self.old) }
        ensures legal { IsLegal self.old.made self.old.past → IsLegal self.new.made self.new.past }
    {
        let from = self.given.pulled(osd);
        let to = self.log.len();
        let asked = self.newly(osd);
        let items = self.log.items_after(self.alloc, from)?;
        let ask = self.ask(osd)?;
        if !gives(from, to, asked) {
            return Ok(pulled(from, to, items, ask, false));
        }
        self.events.reserve(1)?;
        self.given.give(osd, to, asked)?;
        self.events.push_reserved(Event::Pull {
            osd,
            from,
            to,
            asked,
        });
        Ok(pulled(from, to, items, ask, true))
    }

    /// Notes that a member applied the log up to a number, and answers the greatest that it told.
    #[tactic(auto, using(pgs_history::proofs::Legal::legal_tell))]
    pub fn tell(&mut self, osd: u32, applied: u64) -> Result<u64, AllocError>
        requires idle { is_admitting self.old.past ≡ false }
        ensures answer { IfOk result (λ count. count ≡ tell_answer self.old.past osd applied) }
        ensures kept { OnOk result (self.new ≡ record self.old { past = after_tell self.old.past osd applied }) }
        ensures err { OnErr result (self.new ≡ self.old) }
        ensures legal { IsLegal self.old.made self.old.past → IsLegal self.new.made self.new.past }
    {
        let before = self.told.get(osd);
        if applied <= before {
            return Ok(before);
        }
        self.events.reserve(1)?;
        self.told.raise(osd, applied)?;
        self.events.push_reserved(Event::Tell { osd, applied });
        Ok(applied)
    }

    // The first acting OSD that told of less than a number.
    #[tactic(auto, using(crate::proofs::Finds::behind_is))]
    fn behind(&self, number: u64) -> Option<u32>
        ensures { result ≡ behind self.now.made self.now.past number }
    {
        first_behind(self.acting(), &self.told, number)
    }

    // The open chunk's number, where a write of a request waits.
    fn waits_for(&self, id: ReqId) -> Option<u64>
        ensures { result ≡ where_so (is_parked (parked self.now.past) id) (option_map (λ chunk. chunk.number) (open_chunk self.now.past)) }
    {
        if self.waiting.holds(id) {
            return self.scrubs.open_number();
        }
        None
    }

    // Why a request was refused when it was taken up.
    fn refused(&self, id: ReqId) -> Option<Refusal>
        ensures { result ≡ refused self.now.past id }
    {
        refusal_of(self.refused.as_slice(), id)
    }

    // Why a request has no outcome in the log.
    #[tactic(auto, using(crate::proofs::Outcomes::still_so, crate::proofs::Outcomes::refused_so, crate::proofs::Outcomes::logged_so))]
    fn unlogged(&self, id: ReqId) -> Option<CollectAnswer>
        ensures { result ≡ unlogged self.now.past id }
    {
        if let Some(chunk) = self.waits_for(id) {
            return Some(CollectAnswer::StillParked { chunk });
        }
        if let Some(refusal) = self.refused(id) {
            return Some(CollectAnswer::Refused { refusal });
        }
        None
    }

    // The outcome of a request in the log.
    fn found_in_log(&self, id: ReqId) -> CollectAnswer
        ensures { result ≡ collect_found self.now.made self.now.past (version_in (ids self.now.past) id) }
    {
        let Some(version) = self.version_of(id) else {
            return CollectAnswer::Unknown;
        };
        if let Some(osd) = self.behind(version.number) {
            let told = self.told.get(osd);
            return CollectAnswer::NotYet { osd, told };
        }
        CollectAnswer::Acked { version }
    }

    // The outcome of a request.
    fn outcome(&self, id: ReqId) -> CollectAnswer
        ensures { result ≡ collect_answer self.now.made self.now.past id }
    {
        if let Some(answer) = self.unlogged(id) {
            return answer;
        }
        self.found_in_log(id)
    }

    /// The outcome of a request. The first time that a client learns of an acknowledgement is kept.
    #[tactic(auto, using(pgs_history::proofs::Legal::legal_collect))]
    pub fn collect(&mut self, id: ReqId) -> Result<CollectAnswer, AllocError>
        requires idle { is_admitting self.old.past ≡ false }
        ensures answer { IfOk result (λ a. a ≡ collect_answer self.old.made self.old.past id) }
        ensures kept { OnOk result (self.new ≡ record self.old { past = after_collect self.old.made self.old.past id }) }
        ensures err { OnErr result (self.new ≡ self.old) }
        ensures legal { IsLegal self.old.made self.old.past → IsLegal self.new.made self.new.past }
    {
        let answer = self.outcome(id);
        let CollectAnswer::Acked { version } = answer else {
            return Ok(answer);
        };
        if self.collected.contains(&id) {
            return Ok(answer);
        }
        self.events.reserve(1)?;
        self.collected.insert(id)?;
        self.events.push_reserved(Event::Collect { id, version });
        Ok(answer)
    }
}

// A pull gives something.
fn gives(from: u64, to: u64, asked: Option<u64>) -> bool
    ensures { result ≡ (nat_lt from to || is_some asked) }
{
    from < to || asked.is_some()
}

fn pulled(from: u64, to: u64, items: Items<Item>, ask: Option<Ask>, is_new: bool) -> Pulled
    ensures { result ≡ record { from = from; to = to; items = items; ask = ask; is_new = is_new } }
{
    Pulled {
        from,
        to,
        items,
        ask,
        is_new,
    }
}
