ghost use Rattle.std.specs.Prelude.{◌<◌, length, slice_get};
ghost use Rattle.pgs_shard.specs.Answers.{IsWrittenAt};

use pgs_medium::{Item, Medium, MediumError};

// Writes the item at a place.
pub fn write_at<M: Medium>(medium: &mut M, items: &[Item], at: usize) -> Result<(), MediumError>
    requires { at < length items.now }
    ensures { IsWrittenAt (slice_get items.now at) (M.device medium.old) result (M.device medium.new) }
{
    medium.write(&items[at])
}
