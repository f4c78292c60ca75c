ghost use Rattle.std.specs.Prelude.{◌≡◌, ◌++◌, ◌∷◌, [], OnOk, codes};
ghost use Rattle.std.specs.Fmt.{decimal};
ghost use Rattle.pgs_words.specs.Forms.{all_spelled};
ghost use Rattle.pgs_words.specs.Fields as fields;
ghost use Rattle.pgs_lines.specs.Objects as objects;
ghost use Rattle.pgs_lines.specs.Basics as basics;
ghost use Rattle.pgs_done.specs.Contexts.{as_printed};
ghost use Rattle.pgs_done.specs.Words.{behind, begins};
ghost use Rattle.pgs_done.specs.Ranges.{as_kept};
ghost use Rattle.pgs_lines.specs.declared.basic.Basic.TheVariants as said;

use super::contexts::push_context;
use super::damages::push_damage;
use super::objects::push_object;
use super::ops::push_op;
use super::words::{push_number, push_word};
use pgs_lines::{Damage, Kind, Object, Snap};
use pgs_request::{Op, SnapContext};
use std::alloc::{AllocError, Global};

fn push_snap(alloc: Global, snap: Snap, out: &mut Vec<u8>) -> Result<(), AllocError>
    ensures { OnOk result (out.new.items ≡ out.old.items ++ behind ((objects.snap).spell snap ∷ [])) }
{
    match snap {
        Snap::Head => push_word(b"head", out),
        Snap::Clone { snap } => push_number(alloc, u64::from(snap), out),
    }
}

/// Appends the words of a write.
#[tactic(auto, using(crate::proofs::Behind::joins))]
pub fn push_write(
    alloc: Global,
    client: u32,
    serial: u32,
    object: &Object,
    context: &SnapContext,
    op: &Op,
    out: &mut Vec<u8>,
) -> Result<(), AllocError>
    ensures { OnOk result (out.new.items ≡ out.old.items ++ begins (basics.basic_said (said.Write client serial (as_kept object.now) (as_printed context.now) op.now)).words) }
{
    out.extend_from_slice(b"write")?;
    push_number(alloc, u64::from(client), out)?;
    push_number(alloc, u64::from(serial), out)?;
    push_object(object, out)?;
    push_context(alloc, context, out)?;
    push_op(alloc, op, out)
}

/// Appends the words by which a parked write is admitted.
#[tactic(auto, using(crate::proofs::Behind::joins))]
pub fn push_admit(
    alloc: Global,
    client: u32,
    serial: u32,
    out: &mut Vec<u8>,
) -> Result<(), AllocError>
    ensures { OnOk result (out.new.items ≡ out.old.items ++ (codes "admit" ++ behind (decimal client ∷ decimal serial ∷ []))) }
{
    out.extend_from_slice(b"admit")?;
    push_number(alloc, u64::from(client), out)?;
    push_number(alloc, u64::from(serial), out)
}

/// Appends the words of a `collect`.
#[tactic(auto, using(crate::proofs::Behind::joins))]
pub fn push_collect(
    alloc: Global,
    group: u32,
    client: u32,
    serial: u32,
    out: &mut Vec<u8>,
) -> Result<(), AllocError>
    ensures { OnOk result (out.new.items ≡ out.old.items ++ (codes "collect" ++ behind ((basics.collect_form).spell (group, (client, serial))))) }
{
    out.extend_from_slice(b"collect")?;
    push_number(alloc, u64::from(group), out)?;
    push_number(alloc, u64::from(client), out)?;
    push_number(alloc, u64::from(serial), out)
}

/// Appends a word, a group and an OSD.
#[tactic(auto, using(crate::proofs::Behind::joins))]
pub fn push_member(
    alloc: Global,
    word: &[u8],
    group: u32,
    osd: u32,
    out: &mut Vec<u8>,
) -> Result<(), AllocError>
    ensures { OnOk result (out.new.items ≡ out.old.items ++ (word.now ++ behind ((basics.member_form).spell (group, osd)))) }
{
    out.extend_from_slice(word)?;
    push_number(alloc, u64::from(group), out)?;
    push_number(alloc, u64::from(osd), out)
}

/// Appends the words of a `damage`.
#[tactic(auto, using(crate::proofs::Behind::joins))]
pub fn push_damage_step(
    alloc: Global,
    group: u32,
    osd: u32,
    object: &Object,
    snap: Snap,
    damage: &Damage,
    out: &mut Vec<u8>,
) -> Result<(), AllocError>
    ensures { OnOk result (out.new.items ≡ out.old.items ++ begins (basics.basic_said (said.Damage group osd (as_kept object.now) snap damage.now)).words) }
{
    push_member(alloc, b"damage", group, osd, out)?;
    push_object(object, out)?;
    push_snap(alloc, snap, out)?;
    push_damage(alloc, damage, out)
}

/// Appends a word and a number, which mostly is a group.
#[tactic(auto, using(crate::proofs::Behind::joins))]
pub fn push_group(
    alloc: Global,
    word: &[u8],
    group: u32,
    out: &mut Vec<u8>,
) -> Result<(), AllocError>
    ensures { OnOk result (out.new.items ≡ out.old.items ++ (word.now ++ behind (decimal group ∷ []))) }
{
    out.extend_from_slice(word)?;
    push_number(alloc, u64::from(group), out)
}

/// Appends a kind, behind a space.
pub fn push_kind(kind: Kind, out: &mut Vec<u8>) -> Result<(), AllocError>
    ensures { OnOk result (out.new.items ≡ out.old.items ++ behind (objects.kind_word kind ∷ [])) }
{
    match kind {
        Kind::Shallow => push_word(b"shallow", out),
        Kind::Deep => push_word(b"deep", out),
    }
}

/// Appends the words of a `begin`.
#[tactic(auto, using(crate::proofs::Behind::joins))]
pub fn push_begin(
    alloc: Global,
    group: u32,
    kind: Kind,
    out: &mut Vec<u8>,
) -> Result<(), AllocError>
    ensures { OnOk result (out.new.items ≡ out.old.items ++ (codes "begin" ++ behind (decimal group ∷ objects.kind_word kind ∷ []))) }
{
    push_group(alloc, b"begin", group, out)?;
    push_kind(kind, out)
}

// Appends numbers, behind a space each.
fn push_numbers(alloc: Global, numbers: &[u32], out: &mut Vec<u8>) -> Result<(), AllocError>
    ensures { OnOk result (out.new.items ≡ out.old.items ++ behind (all_spelled fields.number numbers.now)) }
{
    for number in numbers {
        push_number(alloc, u64::from(*number), out)?;
    }
    Ok(())
}

/// Appends the words of an `interval`.
#[tactic(auto, using(crate::proofs::Behind::joins))]
pub fn push_interval(
    alloc: Global,
    group: u32,
    acting: &[u32],
    out: &mut Vec<u8>,
) -> Result<(), AllocError>
    ensures { OnOk result (out.new.items ≡ out.old.items ++ (codes "interval" ++ behind ((basics.interval_form).spell (group, acting.now)))) }
{
    push_group(alloc, b"interval", group, out)?;
    push_numbers(alloc, acting, out)
}

/// Appends the words of a `job`.
#[tactic(auto, using(crate::proofs::Behind::joins))]
pub fn push_job(
    alloc: Global,
    group: u32,
    kind: Kind,
    rank: u8,
    moment: u32,
    out: &mut Vec<u8>,
) -> Result<(), AllocError>
    ensures { OnOk result (out.new.items ≡ out.old.items ++ (codes "job" ++ behind ((basics.job_form).spell (group, (kind, (rank, moment)))))) }
{
    push_group(alloc, b"job", group, out)?;
    push_kind(kind, out)?;
    push_number(alloc, u64::from(rank), out)?;
    push_number(alloc, u64::from(moment), out)
}
