//! The requests that were refused when they were taken up.
ghost use Rattle.std.specs.Prelude.{◌≡◌};
ghost use Rattle.pgs_history.specs.Parked.{refusal_in, of_others};

use pgs_request::{Refusal, ReqId};

/// Why a request was refused.
pub fn refusal_of(refused: &[(ReqId, Refusal)], id: ReqId) -> Option<Refusal>
    ensures { result ≡ refusal_in refused.now id }
{
    match refused.iter().find(|entry| entry.0 == id) {
        Some(entry) => Some(entry.1),
        None => None,
    }
}

/// Forgets that a request was refused.
pub fn forget(refused: &mut Vec<(ReqId, Refusal)>, id: ReqId)
    ensures { refused.new.items ≡ of_others id refused.old.items }
{
    refused.retain(|entry| !(entry.0 == id));
}
