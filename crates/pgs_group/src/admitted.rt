use pgs_history::WriteAnswer;
use pgs_request::ReqId;

/// A write that waited and was taken up.
#[derive(Drop)]
pub struct Admitted {
    /// Its request.
    pub id: ReqId,
    /// Its answer.
    pub answer: WriteAnswer,
}
