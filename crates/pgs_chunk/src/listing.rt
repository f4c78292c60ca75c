ghost use Rattle.std.specs.Prelude.{◌≡◌, ℕ, List};
ghost use Rattle.pgs_name.specs.declared.object_id.ObjectId.{ObjectId};
ghost use Rattle.pgs_range.specs.declared.bound.Bound.{Bound};
ghost use Rattle.pgs_chunk.specs.Positions.{Ascends};
ghost use Rattle.pgs_chunk.specs.Chunk.{chunk_of};
ghost use Rattle.pgs_chunk.specs.Selection as selection;
ghost use Rattle.pgs_chunk.specs.Listings as listings;

use pgs_name::ObjectId;

/// Whether a listing may stop: more than so many positions are listed, of two families at least.
#[tactic(auto, using(crate::proofs::Listings::is_listing, crate::proofs::Listings::chunk_early))]
pub fn is_full(listed: &[ObjectId], limit: u32) -> bool
    requires ascends { Ascends listed.now }
    ensures told { result ≡ listings.is_full limit listed.now }

    // A listing is the first of its positions, and its chunk is that of all of them.
    ensures first { (start : Bound) (positions : List ObjectId) → listings.IsListing limit (selection.from_start start positions) (listings.listing limit start positions) }
    ensures early { (start : Bound) (positions : List ObjectId) → Ascends positions
        → chunk_of limit (listings.listing limit start positions) start ≡ chunk_of limit positions start }
{
    listed.len() > limit as usize && !is_of_one_family(listed)
}

// Whether the first and the last are of one family, as then all are.
#[tactic(auto, using(crate::proofs::Ends::one_families))]
fn is_of_one_family(listed: &[ObjectId]) -> bool
    requires ascends { Ascends listed.now }
    ensures { result ≡ selection.of_one_family listed.now }
{
    match listed.split_first() {
        Some((first, rest)) => match rest.split_last() {
            Some((last, _)) => first.family == last.family,
            None => true,
        },
        None => true,
    }
}
