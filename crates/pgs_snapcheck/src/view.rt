use pgs_facts::CopyFacts;
use pgs_name::ObjectId;

/// One position as the check of the snapshots sees it.
#[derive(Drop)]
pub struct View {
    pub id: ObjectId,
    /// What the copy tells of itself that stands for the position. Where none could be looked at, the position is there all the same.
    pub facts: Option<CopyFacts>,
}
