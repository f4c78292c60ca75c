//! What differs between the attributes of two copies.
ghost use Rattle.std.specs.Prelude.{◌≡◌, not, ◌&&◌, is_none};
ghost use Rattle.std.specs.List.{list_any};
ghost use Rattle.std.specs.Option.{option_copied};
ghost use Rattle.pgs_copy.specs.Pairs.{value_at};
ghost use Rattle.pgs_compare.specs.Objects as defined;
ghost use Rattle.pgs_compare.specs.Parts.{has_other_value, misses_name};

use pgs_bytes::Bytes;
use pgs_copy::Pairs;
use std::collections::BTreeMap;

// Whether two values are both there, and differ.
fn are_other(a: Option<&Bytes>, b: Option<&Bytes>) -> bool
    ensures { result ≡ defined.are_other (option_copied a.entry) (option_copied b.entry) }
{
    let Some(a) = a else {
        return false;
    };
    let Some(b) = b else {
        return false;
    };
    a != b
}

// Whether an attribute of both has different values.
pub fn is_other_at(name: &Bytes, a: &Pairs, b: &Pairs) -> bool
    ensures { result ≡ defined.are_other (value_at name.now a.now) (value_at name.now b.now) }
{
    are_other(a.get(name), b.get(name))
}

// A user attribute is any but `_` and `snapset`.
fn is_user(name: &Bytes) -> bool
    ensures { result ≡ defined.is_user name.now }
{
    let name = name.as_slice();
    name != b"_".as_slice() && name != b"snapset".as_slice()
}

// Whether a user attribute of both has different values.
#[tactic(auto, using(crate::proofs::AttrLaws::other_values))]
pub fn have_other_values(a: &Pairs, b: &Pairs) -> bool
    ensures { result ≡ defined.have_other_values a.now b.now }
{
    some_other_value(a.as_map(), b)
}

fn some_other_value(a: &BTreeMap<Bytes, Bytes>, b: &Pairs) -> bool
    ensures { result ≡ list_any (has_other_value b.now) a.now.entries }
{
    a.iter().any(|(name, value)| is_other_value(name, value, b))
}

fn is_other_value(name: &Bytes, value: &Bytes, b: &Pairs) -> bool
    ensures { result ≡ (defined.is_user name.now && defined.are_other (Some value.now) (value_at name.now b.now)) }
{
    is_user(name) && are_other(Some(value), b.get(name))
}

// Whether a user attribute is on one and not on the other.
pub fn have_other_names(a: &Pairs, b: &Pairs) -> bool
    ensures { result ≡ defined.have_other_names a.now b.now }
{
    has_name_beside(a, b) || has_name_beside(b, a)
}

#[tactic(auto, using(crate::proofs::AttrLaws::name_beside))]
fn has_name_beside(a: &Pairs, b: &Pairs) -> bool
    ensures { result ≡ defined.has_name_beside a.now b.now }
{
    some_name_beside(a.as_map(), b)
}

fn some_name_beside(a: &BTreeMap<Bytes, Bytes>, b: &Pairs) -> bool
    ensures { result ≡ list_any (misses_name b.now) a.now.entries }
{
    a.iter().any(|(name, _)| is_beside(name, b))
}

fn is_beside(name: &Bytes, b: &Pairs) -> bool
    ensures { result ≡ (defined.is_user name.now && is_none (value_at name.now b.now)) }
{
    is_user(name) && b.get(name).is_none()
}
