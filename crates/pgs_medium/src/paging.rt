//! Pages of an omap.
ghost use Rattle.std.specs.Prelude.{◌≡◌, length, take, nat_lt, IfOk};
ghost use Rattle.std.specs.Option.{option_copied};
ghost use Rattle.std.specs.BTreeMap.Range.{entries_between};
ghost use Rattle.std.specs.Cmp.Lexicographic.{slice_cmp};
ghost use Rattle.std.specs.Ordering.{nat_cmp};
ghost use Rattle.std.specs.Range.Bound.{bound_map};
ghost use Rattle.std.specs.declared.ops.Bound.TheVariants.{Unbounded};
ghost use Rattle.pgs_copy.specs.Pairs.{IsInOrder};
ghost use Rattle.pgs_medium.specs.Reads as defined;
ghost use Rattle.pgs_medium.specs.Reads.{page_with};

use crate::omap_page::OmapPage;
use pgs_bytes::Bytes;
use pgs_copy::ObjCopy;
use sqlite_items::Items;
use std::alloc::{AllocError, Global};
use std::collections::BTreeMap;
use std::ops::Bound;

/// How many pairs a page has at most.
pub const PAGE_PAIRS: usize = 256;

/// The page of a copy's omap behind a key, or the first where none is given.
pub fn page_behind(
    alloc: Global,
    copy: &ObjCopy,
    key: Option<&Bytes>,
) -> Result<OmapPage, AllocError>
    ensures page { IfOk result (λ page. page ≡ defined.page_behind (option_copied key.entry) copy.now) }
    ensures in_order { IfOk result (λ _. IsInOrder copy.now.omap) }
{
    let header = copy.header.clone()?;
    page_from(alloc, header, copy.omap.as_map(), start_behind(key))
}

fn start_behind(key: Option<&Bytes>) -> Bound<&Bytes>
    ensures { bound_map (λ x. x.now) result ≡ defined.start_behind (option_copied key.entry) }
{
    match key {
        Some(key) => Bound::Excluded(key),
        None => Bound::Unbounded,
    }
}

// The first pairs from a start on.
#[tactic(auto, using(crate::proofs::Pages::pages))]
fn page_from(
    alloc: Global,
    header: Bytes,
    omap: &BTreeMap<Bytes, Bytes>,
    start: Bound<&Bytes>,
) -> Result<OmapPage, AllocError>
    ensures { IfOk result (λ page. page ≡ page_with header (entries_between (slice_cmp nat_cmp) (bound_map (λ x. x.now) start.entry) Unbounded omap.now.entries)) }
{
    let mut pairs = Items::new(alloc);
    for (key, value) in omap.range((start, Bound::Unbounded)) {
        if pairs.len() >= PAGE_PAIRS {
            return Ok(OmapPage {
                header,
                pairs,
                more: true,
            });
        }
        let key = key.clone()?;
        let value = value.clone()?;
        pairs.push((key, value))?;
    }
    Ok(OmapPage {
        header,
        pairs,
        more: false,
    })
}
