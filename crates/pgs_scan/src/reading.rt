ghost use Rattle.std.specs.Prelude.{ℕ, ◌≡◌, ◌≤◌, ◌++◌, true, false, is_some, IfOk, IfSome};
ghost use Rattle.pgs_copy.specs.Copies.{empty_copy};
ghost use Rattle.pgs_copy.specs.Pairs.{IsInOrder};
ghost use Rattle.pgs_map.specs.Entries.{entry_of};
ghost use Rattle.pgs_scan.specs.Calls.{IsBegun, IsReadOnAt};
ghost use Rattle.pgs_scan.specs.Seen as seen;
ghost use Rattle.pgs_scan.specs.Steps as defined;
ghost use Rattle.pgs_scan.specs.Steps.{IsFrontAt};
ghost use Rattle.pgs_scan.specs.Taken.{first_read, IsStrideTaken, IsPageTaken, step_of};

use crate::appending::append;
use crate::asking::{attrs_of, bytes_of, page_behind, size_of};
use crate::reading_step::ReadingStep;
use pgs_bytes::Bytes;
use pgs_copy::{ObjCopy, Pairs};
use pgs_crc::Tables;
use pgs_map::{Entry, data_digest, omap_digest};
use pgs_medium::{Medium, OmapPage};
use pgs_name::ObjectId;
use std::alloc::{AllocError, Global};
use std::marker::Model;

/// What was read of a copy: its size and its attributes, and a front of its data and of its omap.
#[derive(Drop)]
pub struct Reading {
    size: u64,
    // The data. That of `copy` stays empty, since `Bytes::write` takes a place of 32 bits.
    bytes: Vec<u8>,
    copy: ObjCopy,
}

impl Model for Reading {
    ghost use Rattle.pgs_scan.specs.Reads.{Read};

    ghost Value = { Read };

    ghost view = { λ r. record { size = r.size; copy = record r.copy { bytes = r.bytes.items } } };
}

impl Reading {
    /// Nothing was read. It takes no memory.
    pub fn new(alloc: Global) -> Reading
        ensures { result ≡ record { size = 0; copy = empty_copy } }
    {
        Reading {
            size: 0,
            bytes: Vec::new(alloc),
            copy: ObjCopy::new(alloc),
        }
    }

    /// The first step: the size and the attributes of a copy that is there, or nothing where the device failed. Both calls of the device are
    /// made, also where the first fails.
    #[tactic(auto, using(crate::proofs::Begun::beginning))]
    pub fn begin<M: Medium>(
        alloc: Global,
        medium: &mut M,
        id: &ObjectId,
    ) -> Result<Option<Reading>, AllocError>
        requires { is_some ((M.device medium.old).stored id.now.family id.now.snap) ≡ true }
        ensures { IsBegun ((M.device medium.old).stored id.now.family id.now.snap) (M.device medium.old) result (M.device medium.new) }
    {
        let size = size_of(medium, id)?;
        let attrs = attrs_of(medium, id)?;
        Ok(Reading::first(alloc, size, attrs))
    }

    // What both calls told, where none failed.
    fn first(alloc: Global, size: Option<u64>, attrs: Option<Pairs>) -> Option<Reading>
        ensures { result ≡ first_read size attrs }
    {
        let size = size?;
        let attrs = attrs?;
        let mut reading = Reading::new(alloc);
        reading.size = size;
        reading.copy.attrs = attrs;
        Some(reading)
    }

    /// A further step: the next stride of the data, of at most so many bytes, and once the data is read the next page of the omap. Where the
    /// device fails or memory runs out, what was read stays as it was.
    pub fn read_on<M: Medium>(
        &mut self,
        medium: &mut M,
        id: &ObjectId,
        stride: u32,
    ) -> Result<ReadingStep, AllocError>
        requires stride { 1 ≤ stride }
        requires front { IsFrontAt ((M.device medium.old).stored id.now.family id.now.snap) self.old }
        ensures { IsReadOnAt stride ((M.device medium.old).stored id.now.family id.now.snap) (M.device medium.old) self.old result (M.device medium.new) self.new }
    {
        if self.has_data_left() {
            self.read_stride(medium, id, stride)
        } else {
            self.read_page(medium, id)
        }
    }

    fn has_data_left(&self) -> bool
        ensures { result ≡ defined.has_data_left self.now }
    {
        (self.bytes.len() as u64) < self.size
    }

    // The next stride of the data.
    #[tactic(auto, using(crate::proofs::Taking::strides))]
    fn read_stride<M: Medium>(
        &mut self,
        medium: &mut M,
        id: &ObjectId,
        stride: u32,
    ) -> Result<ReadingStep, AllocError>
        requires left { defined.has_data_left self.old ≡ true }
        requires front { IsFrontAt ((M.device medium.old).stored id.now.family id.now.snap) self.old }
        ensures { IsReadOnAt stride ((M.device medium.old).stored id.now.family id.now.snap) (M.device medium.old) self.old result (M.device medium.new) self.new }
    {
        let bytes = bytes_of(medium, id, self.bytes.len() as u64, u64::from(stride))?;
        self.take_stride(bytes)
    }

    // Takes in a stride that was read, if the device gave one.
    fn take_stride(&mut self, bytes: Option<Bytes>) -> Result<ReadingStep, AllocError>
        ensures { IsStrideTaken bytes self.old result self.new }
    {
        let Some(bytes) = bytes else {
            return Ok(ReadingStep::Failed);
        };
        self.bytes.extend_from_slice(bytes.as_slice())?;
        Ok(ReadingStep::More)
    }

    // The next page of the omap.
    #[tactic(auto, using(crate::proofs::Taking::pages))]
    fn read_page<M: Medium>(
        &mut self,
        medium: &mut M,
        id: &ObjectId,
    ) -> Result<ReadingStep, AllocError>
        requires read { defined.has_data_left self.old ≡ false }
        requires front { IsFrontAt ((M.device medium.old).stored id.now.family id.now.snap) self.old }
        ensures { (stride : ℕ) → IsReadOnAt stride ((M.device medium.old).stored id.now.family id.now.snap) (M.device medium.old) self.old result (M.device medium.new) self.new }
    {
        let page = page_behind(medium, id, &self.copy.omap)?;
        self.take_page(page)
    }

    // Takes in a page that was read, if the device gave one.
    fn take_page(&mut self, page: Option<OmapPage>) -> Result<ReadingStep, AllocError>
        requires { IfSome page (λ p. IsInOrder (self.old.copy.omap ++ p.pairs)) }
        ensures { IsPageTaken page self.old result self.new }
    {
        let Some(page) = page else {
            return Ok(ReadingStep::Failed);
        };
        append(&mut self.copy.omap, page.pairs.as_slice())?;
        self.copy.header = page.header;
        Ok(step_after(page.more))
    }

    /// The attributes, for the entry.
    pub fn attrs(&self) -> Result<Pairs, AllocError>
        ensures { IfOk result (λ attrs. attrs ≡ self.now.copy.attrs) }
    {
        self.copy.attrs.clone()
    }

    /// The entry where the device failed at the data or the omap, with these attributes. It takes no memory.
    pub fn half_read_entry(&self, id: ObjectId, attrs: Pairs) -> Entry
        ensures { result ≡ seen.entry_without_digests true id self.now.size attrs }
    {
        entry_without_digests(id, self.size, attrs, true)
    }

    /// The entry in a shallow scrub. It takes no memory.
    pub fn into_shallow_entry(self, id: ObjectId) -> Entry
        ensures { result ≡ seen.entry_without_digests false id self.size self.copy.attrs }
    {
        let Reading { size, copy, .. } = self;
        let ObjCopy { attrs, .. } = copy;
        entry_without_digests(id, size, attrs, false)
    }

    /// The entry of a copy that was read whole, with its attributes. It takes no memory.
    pub fn deep_entry(&self, tables: &Tables<1>, id: ObjectId, attrs: Pairs) -> Entry
        ensures { attrs ≡ self.now.copy.attrs → result ≡ entry_of true id self.now.copy }
    {
        let data = data_digest(tables, self.bytes.as_slice());
        let omap = omap_digest(tables, &self.copy);
        Entry {
            id,
            stat_failed: false,
            read_failed: false,
            size: self.bytes.len() as u64,
            attrs,
            data_digest: Some(data),
            omap_digest: Some(omap),
        }
    }
}

// An entry of a size and attributes.
fn entry_without_digests(id: ObjectId, size: u64, attrs: Pairs, read_failed: bool) -> Entry
    ensures { result ≡ seen.entry_without_digests read_failed id size attrs }
{
    Entry {
        id,
        stat_failed: false,
        read_failed,
        size,
        attrs,
        data_digest: None,
        omap_digest: None,
    }
}

// What a step came to behind which more is left, or nothing.
fn step_after(more: bool) -> ReadingStep
    ensures { result ≡ step_of more }
{
    if more {
        ReadingStep::More
    } else {
        ReadingStep::Whole
    }
}
