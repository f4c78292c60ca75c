ghost use Rattle.std.specs.Prelude.{◌≡◌, nat_lt, find};
ghost use Rattle.pgs_group.specs.Counts.{count_of};

use crate::counts::Counts;

/// The first of the members whose count is below a number.
pub fn first_behind(members: &[u32], counts: &Counts, number: u64) -> Option<u32>
    ensures { result ≡ find (λ osd. nat_lt (count_of counts.now osd) number) members.now }
{
    members
        .iter()
        .copied()
        .find(|osd| counts.get(*osd) < number)
}
