ghost use Rattle.std.specs.Prelude.{ℕ, ◌≡◌, ◌≢◌, IsTrue, IfOk, IfSome, IfNone, OnOk, OnErr, Some, position};
ghost use Rattle.std.specs.Option.{option_copied};
ghost use Rattle.std.specs.List.{list_all};
ghost use Rattle.pgs_slots.specs.Slots.{IsTold, IsDenied};
ghost use Rattle.pgs_slots.specs.Rows.{is_sized, free_rows, AreSized, is_of, slots_of, with_claim, with_release, claim_answer, release_answer};

use crate::claim_answer::ClaimAnswer;
use crate::holder::Holder;
use crate::osd_slots::OsdSlots;
use crate::row::Row;
use std::alloc::{AllocError, Global};
use std::marker::Model;

/// OSDs and their slots, in the order in which they were given. Of an OSD that is given twice the first place counts.
#[derive(Drop)]
pub struct SlotList {
    rows: Vec<Row>,
}

impl Model for SlotList {
    ghost use Rattle.std.specs.Prelude.{List};
    ghost use Rattle.pgs_slots.specs.declared.row.Row.{Row as SlotRow};
    ghost use Rattle.pgs_slots.specs.Rows.{AreRowsSized};

    ghost Value = { List SlotRow };

    ghost view = { λ s. s.rows.items };

    ghost invariant = { λ s. AreRowsSized s.rows.items };
}

// Where the row of an OSD is.
fn place(rows: &[Row], osd: u32) -> Option<usize>
    ensures { result ≡ position (is_of osd) rows.now }
{
    rows.iter().position(|row| row.osd == osd)
}

impl SlotList {
    /// These OSDs, each with so many free slots.
    #[tactic(auto, using(crate::proofs::Places::news))]
    pub fn new(alloc: Global, osds: &[OsdSlots]) -> Result<SlotList, AllocError>
        requires { IsTrue (list_all is_sized osds.now) }
        ensures { IfOk result (λ list. list ≡ free_rows osds.now) }
    {
        let mut rows = Vec::new(alloc);
        for osd in osds {
            let row = Row::new(alloc, osd.osd, osd.slots)?;
            rows.push(row)?;
        }
        Ok(SlotList { rows })
    }

    /// Claims the first free slot of an OSD for a scrub. It takes memory only where the claim is denied.
    #[tactic(auto, using(crate::proofs::Places::claims))]
    pub fn claim(
        &mut self,
        alloc: Global,
        osd: u32,
        holder: Holder,
    ) -> Result<ClaimAnswer, AllocError>
        ensures answer { IfOk result (λ answer. answer ≡ claim_answer self.old osd) }
        ensures told { IfOk result (λ answer. IsTold answer (slots_of self.old osd)) }
        ensures kept { OnOk result (self.new ≡ with_claim osd holder self.old) }
        ensures others { (other : ℕ) → other ≢ osd → slots_of self.new other ≡ slots_of self.old other }
        ensures err { OnErr result (self.new ≡ self.old) }
        ensures memory { OnErr result (IsDenied (claim_answer self.old osd)) }
    {
        match place(self.rows.as_slice(), osd) {
            Some(at) => {
                let row = &mut self.rows[at];
                let answer = row.claim(alloc, holder)?;
                Ok(answer)
            }
            None => Ok(ClaimAnswer::Unknown),
        }
    }

    /// Frees the first slot of an OSD that a scrub holds, and answers its number. Where it holds none, all is as before.
    #[tactic(auto, using(crate::proofs::Places::releases))]
    pub fn release(&mut self, osd: u32, holder: Holder) -> Option<u8>
        ensures answer { result ≡ release_answer self.old osd holder }
        ensures kept { self.new ≡ with_release osd holder self.old }
        ensures others { (other : ℕ) → other ≢ osd → slots_of self.new other ≡ slots_of self.old other }
        ensures none { IfNone result (self.new ≡ self.old) }
    {
        match place(self.rows.as_slice(), osd) {
            Some(at) => {
                let row = &mut self.rows[at];
                row.release(holder)
            }
            None => None,
        }
    }

    /// The slots of an OSD, in order.
    #[tactic(auto, using(crate::proofs::Places::shows))]
    pub fn holders(&self, osd: u32) -> Option<&[Option<Holder>]>
        ensures slots { option_copied result ≡ slots_of self.now osd }
        ensures sized { IfSome result (λ slots. AreSized slots.now) }
    {
        match place(self.rows.as_slice(), osd) {
            Some(at) => {
                let row = &self.rows[at];
                Some(row.slots.as_slice())
            }
            None => None,
        }
    }
}
