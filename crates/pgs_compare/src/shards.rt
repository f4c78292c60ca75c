//! What is found of each acting OSD's copy.
ghost use Rattle.std.specs.Prelude.{◌≡◌, ◌++◌, ◌==◌, map, IfOk};
ghost use Rattle.std.specs.Option.{option_copied};
ghost use Rattle.pgs_name.specs.declared.object_id.ObjectId.{ObjectId as Position};
ghost use Rattle.pgs_select.specs.Judging.{judged as judged_of};
ghost use Rattle.pgs_compare.specs.Finding as defined;
ghost use Rattle.pgs_compare.specs.Parts as parts;

use pgs_incons::ShardFinding;
use pgs_info::ObjectInfo;
use pgs_map::Entry;
use pgs_select::{Judged, errors_beside, told};
use sqlite_items::Items;
use std::alloc::{AllocError, Global};

/// What is found of the copies of a position, one for each acting OSD, beside the info of the chosen copy.
pub fn shard_findings(
    alloc: Global,
    acting: &[u32],
    entries: &[Option<&Entry>],
    judged: &[Judged],
    chosen: Option<&ObjectInfo>,
) -> Result<Items<ShardFinding>, AllocError>
    ensures { IfOk result (λ shards. (id : Position) → judged.now ≡ parts.all_judged id (parts.entries_seen entries.now) → shards ≡ defined.shard_findings id (option_copied chosen.entry) acting.now (parts.entries_seen entries.now)) }
{
    let Some(primary) = acting.first() else {
        return Ok(Items::new(alloc));
    };
    shards_beside(alloc, *primary, acting, entries, judged, chosen)
}

fn shards_beside(
    alloc: Global,
    primary: u32,
    acting: &[u32],
    entries: &[Option<&Entry>],
    judged: &[Judged],
    chosen: Option<&ObjectInfo>,
) -> Result<Items<ShardFinding>, AllocError>
    ensures { IfOk result (λ shards. (id : Position) → judged.now ≡ parts.all_judged id (parts.entries_seen entries.now) → shards ≡ defined.shards_from primary id (option_copied chosen.entry) acting.now (parts.entries_seen entries.now)) }
{
    let mut shards = Items::new(alloc);
    for (place, osd) in acting.iter().enumerate() {
        let Some(entry) = entries.get(place) else {
            return Ok(shards);
        };
        let Some(copy) = judged.get(place) else {
            return Ok(shards);
        };
        shards.push(shard_finding(primary, *osd, *entry, copy, chosen))?;
    }
    Ok(shards)
}

fn shard_finding(
    primary: u32,
    osd: u32,
    entry: Option<&Entry>,
    copy: &Judged,
    chosen: Option<&ObjectInfo>,
) -> ShardFinding
    ensures { (id : Position) → copy.now ≡ judged_of id (option_copied entry.entry) → result ≡ defined.shard_finding primary osd id (option_copied entry.entry) (option_copied chosen.entry) }
{
    let errors = errors_beside(copy, entry, chosen);
    let seen = told(entry);
    ShardFinding {
        osd,
        primary: osd == primary,
        errors,
        size: size_of(seen),
        data_digest: data_of(seen),
        omap_digest: omap_of(seen),
    }
}

fn size_of(entry: Option<&Entry>) -> Option<u64>
    ensures { result ≡ defined.size_of (option_copied entry.entry) }
{
    let entry = entry?;
    Some(entry.size)
}

fn data_of(entry: Option<&Entry>) -> Option<u32>
    ensures { result ≡ defined.data_of (option_copied entry.entry) }
{
    let entry = entry?;
    entry.data_digest
}

fn omap_of(entry: Option<&Entry>) -> Option<u32>
    ensures { result ≡ defined.omap_of (option_copied entry.entry) }
{
    let entry = entry?;
    entry.omap_digest
}
