ghost use Rattle.std.specs.Prelude.{◌≡◌, IfOk, IfSome};
ghost use Rattle.std.specs.Option.{option_copied};
ghost use Rattle.pgs_range.specs.Listed.{IsNext};
ghost use Rattle.pgs_copy.specs.Pairs.{IsInOrder};
ghost use Rattle.pgs_store.specs.Stores.{is_stored};
ghost use Rattle.pgs_medium.specs.Device.{Device, IsWritten, IsListed, IsReadAs, IsDamaged};
ghost use Rattle.pgs_medium.specs.Reads.{size_of, attrs_of, bytes_of, page_of};
ghost use Rattle.pgs_medium.specs.declared.call_kind.CallKind.TheVariants as kinds;

use crate::item::Item;
use crate::medium_error::MediumError;
use crate::omap_page::OmapPage;
use pgs_bytes::Bytes;
use pgs_copy::{Damage, ObjCopy, Pairs};
use pgs_name::{Family, ObjectId};
use pgs_range::{Bound, Cursor};
use std::alloc::AllocError;

/// A device that holds copies of objects.
pub trait Medium {
    // What it holds, its count of faults, how many calls were made and failed, and which are to fail.
    ghost device: { Self → Device };

    /// Applies an item to the copies of its family, whole or not at all.
    fn write(&mut self, item: &Item) -> Result<(), MediumError>
        ensures { IsWritten item.now (device self.old) result (device self.new) };

    /// The least position behind a cursor and below a bound.
    fn next(&mut self, cursor: &Cursor, to: &Bound) -> Result<Option<ObjectId>, MediumError>
        ensures { IsListed cursor.now to.now (device self.old) result (device self.new) };

    /// How many bytes the data of a copy has, if it is there.
    fn stat(&mut self, family: &Family, snap: u64) -> Result<Option<u64>, MediumError>
        ensures { IsReadAs kinds.Stat (size_of ((device self.old).stored family.now snap)) (device self.old) result (device self.new) };

    /// The attributes of a copy, if it is there.
    fn attrs(&mut self, family: &Family, snap: u64) -> Result<Option<Pairs>, MediumError>
        ensures { IsReadAs kinds.Attrs (attrs_of ((device self.old).stored family.now snap)) (device self.old) result (device self.new) };

    /// At most so many bytes of a copy's data from a place on, if it is there: fewer at the end, and none past it.
    fn read(
        &mut self,
        family: &Family,
        snap: u64,
        from: u64,
        count: u64,
    ) -> Result<Option<Bytes>, MediumError>
        ensures { IsReadAs kinds.Read (bytes_of from count ((device self.old).stored family.now snap)) (device self.old) result (device self.new) };

    /// The page of a copy's omap behind a key, or the first where none is given, if it is there.
    fn omap(
        &mut self,
        family: &Family,
        snap: u64,
        behind: Option<&Bytes>,
    ) -> Result<Option<OmapPage>, MediumError>
        ensures page { IsReadAs kinds.Omap (page_of (option_copied behind.entry) ((device self.old).stored family.now snap)) (device self.old) result (device self.new) }

        // The copy's pairs stand in the order of their keys' bytes.
        ensures in_order { IfOk result (λ _. IfSome ((device self.old).stored family.now snap) (λ copy. IsInOrder copy.omap)) };

    /// Does damage to a copy. It is no call of the device, and can't fail but for memory.
    fn damage(&mut self, family: &Family, snap: u64, damage: &Damage) -> Result<(), AllocError>
        ensures { IsDamaged family.now snap damage.now (device self.old) result (device self.new) };

    /// The copy at a snap of a family. It is no call of the device.
    fn copy(&self, family: &Family, snap: u64) -> Option<&ObjCopy>
        ensures { option_copied result ≡ (device self.now).stored family.now snap };

    /// The least position behind a cursor and below a bound. It is no call of the device.
    fn least(&self, cursor: &Cursor, to: &Bound) -> Result<Option<ObjectId>, AllocError>
        ensures { IfOk result (λ next. IsNext (is_stored (device self.now).stored) cursor.now to.now next) };

    /// The count of faults. It is no call of the device.
    fn faults(&self) -> u64
        ensures { result ≡ (device self.now).faults };
}
