ghost use Rattle.std.specs.Prelude.{◌≡◌, [], ◌∷◌, ◌++◌, MatchOption};
ghost use Rattle.std.specs.Option.{option_copied};
ghost use Rattle.pgs_map.specs.Entries.{AreAscending, entry_at};

use crate::entry::Entry;
use pgs_name::{ObjectId, compare};
use std::cmp::Ordering;

/// The entry of a position among ascending ones. What is looked at is halved each time.
#[tactic(auto, using(crate::proofs::Found::turns))]
pub fn find_entry<'a>(entries: &'a [Entry], id: &ObjectId) -> Option<&'a Entry>
    ensures { AreAscending entries.now → option_copied result ≡ entry_at id.now entries.now }
{
    let mut rest = entries;
    while let Some((front, middle, behind)) = halves(rest) {
        match compare(id, &middle.id) {
            Ordering::Equal => return Some(middle),
            Ordering::Less => rest = front,
            Ordering::Greater => rest = behind,
        }
    }
    None
}

// The entry in the middle, with those before it and those behind it.
#[tactic(auto, using(crate::proofs::Found::halved))]
fn halves(entries: &[Entry]) -> Option<(&[Entry], &Entry, &[Entry])>
    ensures { MatchOption result (entries.now ≡ []) (λ parts. entries.now ≡ parts.0.now ++ parts.1.now ∷ parts.2.now) }
{
    let (front, back) = entries.split_at(entries.len() / 2);
    match back.split_first() {
        Some((middle, behind)) => Some((front, middle, behind)),
        None => None,
    }
}
