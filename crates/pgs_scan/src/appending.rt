//! Pairs of an omap that are read one page after another.
ghost use Rattle.std.specs.Prelude.{◌≡◌, ◌++◌, OnOk, OnErr};
ghost use Rattle.std.specs.Option.{option_copied};
ghost use Rattle.pgs_copy.specs.Pairs.{IsInOrder, with_pair};
ghost use Rattle.pgs_scan.specs.Asked as asked;

use pgs_bytes::Bytes;
use pgs_copy::Pairs;
use std::alloc::AllocError;

/// The last key.
pub fn last_key(pairs: &Pairs) -> Option<&Bytes>
    ensures { option_copied result ≡ asked.last_key pairs.now }
{
    match pairs.as_map().last_key_value() {
        Some((key, _)) => Some(key),
        None => None,
    }
}

/// Puts pairs behind those of an omap, or none of them where memory runs out. It goes as deep as there are pairs, of which a page has at most 256.
#[tactic(auto, using(crate::proofs::Tails::tails))]
pub fn append(omap: &mut Pairs, pairs: &[(Bytes, Bytes)]) -> Result<(), AllocError>
    requires { IsInOrder (omap.old ++ pairs.now) }
    ensures ok { OnOk result (omap.new ≡ omap.old ++ pairs.now) }
    ensures err { OnErr result (omap.new ≡ omap.old) }
{
    let Some((first, rest)) = pairs.split_first() else {
        return Ok(());
    };
    set(omap, &first.0, &first.1)?;
    match append(omap, rest) {
        Ok(()) => Ok(()),
        Err(refused) => {
            omap.remove(&first.0);
            Err(refused)
        }
    }
}

// Gives a key its value, or leaves all as it is where memory runs out.
fn set(omap: &mut Pairs, key: &Bytes, value: &Bytes) -> Result<(), AllocError>
    ensures ok { OnOk result (omap.new ≡ with_pair key.now value.now omap.old) }
    ensures err { OnErr result (omap.new ≡ omap.old) }
{
    let key = key.clone()?;
    let value = value.clone()?;
    omap.set(key, value)
}
