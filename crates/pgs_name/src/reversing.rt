ghost use Rattle.std.specs.Prelude.{◌≡◌};
ghost use Rattle.pgs_name.specs.Order.{reversed};

/// The word with its bits in the other order.
#[tactic(auto, using(crate::proofs::Turned::reversed_at_once))]
pub fn reverse_bits(word: u32) -> u32
    ensures { result ≡ reversed 32 word }
{
    word.reverse_bits()
}
