//! Of which part of a copy an edit is.
ghost use Rattle.std.specs.Prelude.{◌≡◌};
ghost use Rattle.pgs_copy.specs.InPlace as effects;
ghost use Rattle.pgs_growth.specs.Parts as parts;

use pgs_bytes::Bytes;
use pgs_copy::Effect;

/// Whether all effects are edits on the snap of the first, each of another part.
pub fn are_apart(effects: &[(u64, Effect)]) -> bool
    ensures { result ≡ parts.are_apart effects.now }
{
    let mut rest = effects;
    while let Some((first, others)) = rest.split_first() {
        if !is_edit(&first.1) || !is_beside(first, others) {
            return false;
        }
        rest = others;
    }
    true
}

fn is_beside(first: &(u64, Effect), others: &[(u64, Effect)]) -> bool
    ensures { result ≡ parts.is_beside first.now others.now }
{
    let (snap, edit) = first;
    others.iter().all(|(other_snap, other)| snap == other_snap && !is_of_one_part(edit, other))
}

fn is_edit(effect: &Effect) -> bool
    ensures { result ≡ effects.is_edit effect.now }
{
    !matches!(
        effect,
        Effect::Clear | Effect::Clone { .. } | Effect::Remove | Effect::Install { .. }
    )
}

fn is_of_one_part(one: &Effect, other: &Effect) -> bool
    ensures { result ≡ parts.is_of_one_part one.now other.now }
{
    match one {
        Effect::SetData { .. } | Effect::Write { .. } | Effect::Truncate { .. } => is_of_data(
            other,
        ),
        Effect::SetAttr { name, .. } | Effect::RmAttr { name } => is_of_attr(name, other),
        Effect::SetOmap { key, .. } | Effect::RmOmap { key } => is_of_key(key, other),
        Effect::SetHeader { .. } => is_of_header(other),
        Effect::Clear | Effect::Clone { .. } | Effect::Remove | Effect::Install { .. } => false,
    }
}

fn is_of_data(effect: &Effect) -> bool
    ensures { result ≡ parts.is_of_data effect.now }
{
    matches!(
        effect,
        Effect::SetData { .. } | Effect::Write { .. } | Effect::Truncate { .. }
    )
}

fn is_of_header(effect: &Effect) -> bool
    ensures { result ≡ parts.is_of_header effect.now }
{
    matches!(effect, Effect::SetHeader { .. })
}

fn is_of_attr(attr: &Bytes, effect: &Effect) -> bool
    ensures { result ≡ parts.is_of_attr attr.now effect.now }
{
    match effect {
        Effect::SetAttr { name, .. } | Effect::RmAttr { name } => attr == name,
        _ => false,
    }
}

fn is_of_key(other: &Bytes, effect: &Effect) -> bool
    ensures { result ≡ parts.is_of_key other.now effect.now }
{
    match effect {
        Effect::SetOmap { key, .. } | Effect::RmOmap { key } => other == key,
        _ => false,
    }
}
