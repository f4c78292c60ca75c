ghost use Rattle.std.specs.Prelude.{◌≡◌, reverse};
ghost use Rattle.pgs_op_log.specs.Logs.{newest_in};

use pgs_medium::Item;
use pgs_range::FamilyRange;

/// The number of the last item of a family in the range, and 0 where there is none.
#[tactic(auto, using(crate::proofs::Last::found_here, crate::proofs::Last::found_below))]
pub fn newest(items: &[Item], range: &FamilyRange) -> u64
    ensures { result ≡ newest_in range.now (reverse items.now) }
{
    let mut left = items.len();
    while left > 0 {
        left -= 1;
        let item = &items[left];
        if range.in_range(&item.family) {
            return item.number;
        }
    }
    0
}
