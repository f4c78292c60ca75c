ghost use Rattle.std.specs.Prelude.{◌≡◌, IfOk, Some};
ghost use Rattle.pgs_map.specs.Entries as defined;

use crate::digests::{data_digest, omap_digest};
use crate::entry::Entry;
use pgs_copy::ObjCopy;
use pgs_crc::Tables;
use pgs_name::ObjectId;
use std::alloc::AllocError;

/// The entry of a whole copy, with both digests where its data and omap are read too.
pub fn entry_of(
    tables: &Tables<1>,
    id: ObjectId,
    copy: &ObjCopy,
    deep: bool,
) -> Result<Entry, AllocError>
    ensures { IfOk result (λ entry. entry ≡ defined.entry_of deep id copy.now) }
{
    let attrs = copy.attrs.clone()?;
    let (data, omap) = digests_of(tables, copy, deep);
    Ok(Entry {
        id,
        stat_failed: false,
        read_failed: false,
        size: copy.bytes.len() as u64,
        attrs,
        data_digest: data,
        omap_digest: omap,
    })
}

// Both digests of a copy, where it is read.
fn digests_of(tables: &Tables<1>, copy: &ObjCopy, deep: bool) -> (Option<u32>, Option<u32>)
    ensures { result ≡ defined.digests_of deep copy.now }
{
    if !deep {
        return (None, None);
    }
    let data = data_digest(tables, copy.bytes.as_slice());
    let omap = omap_digest(tables, copy);
    (Some(data), Some(omap))
}
