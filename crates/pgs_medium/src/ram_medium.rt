ghost use Rattle.std.specs.Prelude.{◌≡◌, Some, true};
ghost use Rattle.pgs_store.specs.Stores.{nothing_stored};
ghost use Rattle.pgs_medium.specs.Calls.{one_more, is_named};
ghost use Rattle.pgs_medium.specs.Device.{empty_device, calls_of, answered, IsFailed};
ghost use Rattle.pgs_medium.specs.Ram.{device_of};
ghost use Rattle.pgs_medium.specs.Reads.{size_of, attrs_of, bytes_of, page_of};

use crate::call_count::CallCount;
use crate::call_kind::CallKind;
use crate::failing_call::FailingCall;
use crate::item::Item;
use crate::medium::Medium;
use crate::medium_error::MediumError;
use crate::omap_page::OmapPage;
use crate::paging::page_behind;
use crate::parts::{attrs_of, bytes_of, page_of, size_of};
use pgs_bytes::Bytes;
use pgs_cause::raised;
use pgs_copy::{Damage, ObjCopy, Pairs};
use pgs_name::{Family, ObjectId};
use pgs_range::{Bound, Cursor};
use pgs_store::Store;
use sqlite_items::Items;
use std::alloc::{AllocError, Global};

/// A device in memory. It fails exactly the calls that it is told to.
#[derive(Drop)]
pub struct RamMedium {
    alloc: Global,
    store: Store,
    failing: Items<FailingCall>,
    faults: u64,
    writes: CallCount,
    lists: CallCount,
    stats: CallCount,
    attrs: CallCount,
    reads: CallCount,
    omaps: CallCount,
}

impl RamMedium {
    /// A device that holds nothing, and of which no call was made.
    #[tactic(auto, using(crate::proofs::Devices::begun, crate::proofs::Devices::same_stored))]
    pub fn new(alloc: Global, failing: Items<FailingCall>) -> RamMedium
        ensures device { device_of result ≡ empty_device (Some failing) }
        ensures stored { (device_of result).stored ≡ nothing_stored }
    {
        RamMedium {
            alloc,
            store: Store::new(alloc),
            failing,
            faults: 0,
            writes: CallCount::none(),
            lists: CallCount::none(),
            stats: CallCount::none(),
            attrs: CallCount::none(),
            reads: CallCount::none(),
            omaps: CallCount::none(),
        }
    }

    // The calls of a kind.
    fn count(&self, kind: CallKind) -> &CallCount
        ensures { result.now ≡ calls_of kind (device_of self.now) }
    {
        match kind {
            CallKind::Write => &self.writes,
            CallKind::List => &self.lists,
            CallKind::Stat => &self.stats,
            CallKind::Attrs => &self.attrs,
            CallKind::Read => &self.reads,
            CallKind::Omap => &self.omaps,
        }
    }

    // Whether the list names the next call of a kind.
    fn is_next_failing(&self, kind: CallKind) -> bool
        ensures { result ≡ is_named kind (one_more (calls_of kind (device_of self.now)).made) self.now.failing }
    {
        let number = self.count(kind).next();
        is_failing(self.failing.as_slice(), kind, number)
    }

    // One more call of a kind was answered.
    fn answer(&mut self, kind: CallKind)
        ensures { device_of self.new ≡ answered kind (device_of self.old) }
    {
        match kind {
            CallKind::Write => self.writes.answer(),
            CallKind::List => self.lists.answer(),
            CallKind::Stat => self.stats.answer(),
            CallKind::Attrs => self.attrs.answer(),
            CallKind::Read => self.reads.answer(),
            CallKind::Omap => self.omaps.answer(),
        }
    }

    // One more call of a kind failed, which the list names.
    fn fail(&mut self, kind: CallKind)
        requires { is_named kind (one_more (calls_of kind (device_of self.old)).made) self.old.failing ≡ true }
        ensures { IsFailed kind (device_of self.old) (device_of self.new) }
    {
        self.faults = raised(self.faults);
        match kind {
            CallKind::Write => self.writes.fail(),
            CallKind::List => self.lists.fail(),
            CallKind::Stat => self.stats.fail(),
            CallKind::Attrs => self.attrs.fail(),
            CallKind::Read => self.reads.fail(),
            CallKind::Omap => self.omaps.fail(),
        }
    }
}

impl Medium for RamMedium {
    ghost device = { device_of };

    fn write(&mut self, item: &Item) -> Result<(), MediumError> {
        if self.is_next_failing(CallKind::Write) {
            self.fail(CallKind::Write);
            return Err(MediumError::Failed);
        }
        self.store
            .apply(self.alloc, &item.family, item.effects.as_slice())?;
        self.answer(CallKind::Write);
        Ok(())
    }

    fn next(&mut self, cursor: &Cursor, to: &Bound) -> Result<Option<ObjectId>, MediumError> {
        if self.is_next_failing(CallKind::List) {
            self.fail(CallKind::List);
            return Err(MediumError::Failed);
        }
        let next = self.store.next(cursor, to)?;
        self.answer(CallKind::List);
        Ok(next)
    }

    fn stat(&mut self, family: &Family, snap: u64) -> Result<Option<u64>, MediumError> {
        if self.is_next_failing(CallKind::Stat) {
            self.fail(CallKind::Stat);
            return Err(MediumError::Failed);
        }
        let size = size_of(self.store.copy(family, snap));
        self.answer(CallKind::Stat);
        Ok(size)
    }

    fn attrs(&mut self, family: &Family, snap: u64) -> Result<Option<Pairs>, MediumError> {
        if self.is_next_failing(CallKind::Attrs) {
            self.fail(CallKind::Attrs);
            return Err(MediumError::Failed);
        }
        let attrs = attrs_of(self.store.copy(family, snap))?;
        self.answer(CallKind::Attrs);
        Ok(attrs)
    }

    fn read(
        &mut self,
        family: &Family,
        snap: u64,
        from: u64,
        count: u64,
    ) -> Result<Option<Bytes>, MediumError> {
        if self.is_next_failing(CallKind::Read) {
            self.fail(CallKind::Read);
            return Err(MediumError::Failed);
        }
        let bytes = bytes_of(self.alloc, self.store.copy(family, snap), from, count)?;
        self.answer(CallKind::Read);
        Ok(bytes)
    }

    fn omap(
        &mut self,
        family: &Family,
        snap: u64,
        behind: Option<&Bytes>,
    ) -> Result<Option<OmapPage>, MediumError> {
        if self.is_next_failing(CallKind::Omap) {
            self.fail(CallKind::Omap);
            return Err(MediumError::Failed);
        }
        let page = page_of(self.alloc, self.store.copy(family, snap), behind)?;
        self.answer(CallKind::Omap);
        Ok(page)
    }

    fn damage(&mut self, family: &Family, snap: u64, damage: &Damage) -> Result<(), AllocError> {
        self.store.damage(self.alloc, family, snap, damage)
    }

    fn copy(&self, family: &Family, snap: u64) -> Option<&ObjCopy> {
        self.store.copy(family, snap)
    }

    fn least(&self, cursor: &Cursor, to: &Bound) -> Result<Option<ObjectId>, AllocError> {
        self.store.next(cursor, to)
    }

    fn faults(&self) -> u64 {
        self.faults
    }
}

// Whether a list names the call of this kind and number.
fn is_failing(failing: &[FailingCall], kind: CallKind, number: u64) -> bool
    ensures { result ≡ is_named kind number failing.now }
{
    failing
        .iter()
        .any(|call| call.kind == kind && call.number == number)
}
