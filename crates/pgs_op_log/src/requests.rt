ghost use Rattle.std.specs.Prelude.{◌≡◌, ◌+◌, ◌<◌, ◌≤◌, None, Some, [], ◌∷◌, IfSome, reverse, if◌then◌else◌};
ghost use Rattle.indexmap.specs.IndexMap.{get, spare};
ghost use Rattle.pgs_request.specs.declared.req_id.ReqId.{ReqId as RequestId};
ghost use Rattle.pgs_op_log.specs.Logs.{same_id, version_in, with_id};

use indexmap::IndexMap;
use pgs_request::{ReqId, Version};

/// Notes the version of a request's item, where it came from one. There is room for it.
pub fn note(ids: &mut IndexMap<ReqId, Version>, id: Option<ReqId>, version: Version)
    requires room { 0 < spare ids.old }
    requires fresh { IfSome id (λ i. version_in (reverse ids.old.entries) i ≡ None) }
    requires found { (q : RequestId) → get same_id ids.old q ≡ version_in (reverse ids.old.entries) q }
    ensures entries { reverse ids.new.entries ≡ with_id id version (reverse ids.old.entries) }
    ensures found { (q : RequestId) → get same_id ids.new q ≡ version_in (with_id id version (reverse ids.old.entries)) q }
    ensures room { spare ids.old ≤ spare ids.new + 1 }
{
    match id {
        Some(id) => put(ids, id, version),
        None => {}
    }
}

fn put(ids: &mut IndexMap<ReqId, Version>, id: ReqId, version: Version)
    requires room { 0 < spare ids.old }
    requires absent { get same_id ids.old id ≡ None }
    ensures entries { reverse ids.new.entries ≡ (id, version) ∷ reverse ids.old.entries }
    ensures found { (q : RequestId) → get same_id ids.new q ≡ (if same_id id q then Some version else get same_id ids.old q) }
    ensures room { spare ids.old ≤ spare ids.new + 1 }
{
    match ids.insert(id, version) {
        Ok(_) => {}
        Err(_) => {}
    }
}
