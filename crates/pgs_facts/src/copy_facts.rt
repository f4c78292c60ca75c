ghost use Rattle.std.specs.Prelude.{◌≡◌, IfOk};
ghost use Rattle.pgs_facts.specs.Facts as defined;

use crate::infos::{has_other_size, is_info_of};
use pgs_bytes::Bytes;
use pgs_info::ObjectInfo;
use pgs_map::Entry;
use pgs_name::ObjectId;
use pgs_snapset::SnapSet;
use std::alloc::{AllocError, Global};

/// What one copy tells of itself.
#[derive(Drop)]
pub struct CopyFacts {
    /// How many bytes its data has.
    pub size: u64,
    /// Whether it has the attribute `_`, which holds the object info.
    pub has_info: bool,
    /// Its object info, where that attribute is there and reads.
    pub info: Option<ObjectInfo>,
    /// Whether it has the attribute `snapset`.
    pub has_snapset: bool,
    /// Its snapset, where that attribute is there and reads.
    pub snapset: Option<SnapSet>,
}

impl CopyFacts {
    /// What a copy tells by its entry.
    pub fn of(alloc: Global, entry: &Entry) -> Result<CopyFacts, AllocError>
        ensures { IfOk result (λ facts. facts ≡ defined.facts_of entry.now) }
    {
        let info_name = Bytes::from_slice(alloc, b"_")?;
        let info = entry.attrs.get(&info_name);
        let snapset_name = Bytes::from_slice(alloc, b"snapset")?;
        let snapset = entry.attrs.get(&snapset_name);
        Ok(CopyFacts {
            size: entry.size,
            has_info: info.is_some(),
            info: ObjectInfo::read(alloc, info)?,
            has_snapset: snapset.is_some(),
            snapset: SnapSet::read(alloc, snapset)?,
        })
    }

    /// Whether the attribute `_` isn't there.
    pub fn misses_info(&self) -> bool
        ensures { result ≡ defined.misses_info self.now }
    {
        !self.has_info
    }

    /// Whether the attribute `_` is there, and isn't the whole spelling of an info of this position.
    pub fn has_bad_info(&self, id: &ObjectId) -> bool
        ensures { result ≡ defined.has_bad_info id.now self.now }
    {
        self.has_info && !is_info_of(id, self.info.as_ref())
    }

    /// Whether the attribute `snapset` isn't there.
    pub fn misses_snapset(&self) -> bool
        ensures { result ≡ defined.misses_snapset self.now }
    {
        !self.has_snapset
    }

    /// Whether the attribute `snapset` is there, and isn't the whole spelling of a snapset.
    pub fn has_bad_snapset(&self) -> bool
        ensures { result ≡ defined.has_bad_snapset self.now }
    {
        self.has_snapset && self.snapset.is_none()
    }

    /// Whether its own info reads and has another size than the copy, whatever position it names.
    pub fn has_wrong_size(&self) -> bool
        ensures { result ≡ defined.has_wrong_size self.now }
    {
        has_other_size(self.size, self.info.as_ref())
    }
}
