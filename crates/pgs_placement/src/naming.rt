//! What the words of a line name.
ghost use Rattle.std.specs.Prelude.{◌≡◌, IfOk};
ghost use Rattle.pgs_placement.specs.Naming as defined;

use pgs_copy::Damage;
use pgs_lines::{Object, Snap};
use pgs_name::{Family, HEAD};
use pgs_op::Write;
use pgs_request::{Op, ReqId, SnapContext};
use std::alloc::{AllocError, Global};

/// The family of an object.
pub fn family_of(object: &Object) -> Result<Family, AllocError>
    ensures { IfOk result (λ family. family ≡ defined.family_of object.now) }
{
    let space = object.space.clone()?;
    let key = object.key.clone()?;
    let name = object.name.clone()?;
    Family::new(space, key, name)
}

/// The write that a line asks for.
pub fn write_of(
    client: u32,
    serial: u32,
    object: &Object,
    context: &SnapContext,
    op: &Op,
) -> Result<Write, AllocError>
    ensures { IfOk result (λ write. write ≡ defined.write_of client serial object.now context.now op.now) }
{
    let family = family_of(object)?;
    let context = context.clone()?;
    let op = op.clone()?;
    let id = ReqId { client, serial };
    Ok(Write {
        id,
        family,
        context,
        op,
    })
}

pub fn snap_of(snap: Snap) -> u64
    ensures { result ≡ defined.snap_of snap }
{
    match snap {
        Snap::Head => HEAD,
        Snap::Clone { snap } => u64::from(snap),
    }
}

/// The damage that a line asks for.
pub fn damage_of(alloc: Global, damage: &pgs_lines::Damage) -> Result<Damage, AllocError>
    ensures { IfOk result (λ d. d ≡ defined.damage_of damage.now) }
{
    match damage {
        pgs_lines::Damage::Lose => Ok(Damage::Lose),
        pgs_lines::Damage::Flip { at, xor } => Ok(Damage::Flip { at: *at, xor: *xor }),
        pgs_lines::Damage::Cut { size } => Ok(Damage::Cut { size: *size }),
        pgs_lines::Damage::SetData { payload } => {
            let bytes = payload.to_bytes(alloc)?;
            Ok(Damage::SetData { bytes })
        }
        pgs_lines::Damage::SetAttr { name, payload } => {
            let name = name.clone()?;
            let value = payload.to_bytes(alloc)?;
            Ok(Damage::SetAttr { name, value })
        }
        pgs_lines::Damage::RmAttr { name } => {
            let name = name.clone()?;
            Ok(Damage::RmAttr { name })
        }
        pgs_lines::Damage::SetOmap { key, payload } => {
            let key = key.clone()?;
            let value = payload.to_bytes(alloc)?;
            Ok(Damage::SetOmap { key, value })
        }
        pgs_lines::Damage::RmOmap { key } => {
            let key = key.clone()?;
            Ok(Damage::RmOmap { key })
        }
        pgs_lines::Damage::SetHeader { payload } => {
            let bytes = payload.to_bytes(alloc)?;
            Ok(Damage::SetHeader { bytes })
        }
    }
}

pub fn kind_of(kind: pgs_lines::Kind) -> pgs_chunk::Kind
    ensures { result ≡ defined.kind_of kind }
{
    match kind {
        pgs_lines::Kind::Shallow => pgs_chunk::Kind::Shallow,
        pgs_lines::Kind::Deep => pgs_chunk::Kind::Deep,
    }
}
