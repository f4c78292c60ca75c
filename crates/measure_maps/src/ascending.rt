ghost use Rattle.std.specs.Prelude.{IsTrue};
ghost use Rattle.pgs_map.specs.Entries.{AreAscending};

use pgs_map::Entry;
use pgs_name::is_before;

/// Whether each entry's position stands before the next one's.
#[tactic(auto, using(crate::proofs::Turns::turns))]
pub fn are_ascending(entries: &[Entry]) -> bool
    ensures { IsTrue result → AreAscending entries.now }
{
    let mut at = 1;
    while at < entries.len() {
        if !is_before(&entries[at - 1].id, &entries[at].id) {
            return false;
        }
        at += 1;
    }
    true
}
