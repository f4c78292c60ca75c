use super::printing::says;
use pgs_done::{DamageAnswer, Done, WriteAnswer};
use pgs_lines::{Basic, Context, Damage, Line, Object, Snap, Step, line_in};
use pgs_request::{Op, Version};
use std::alloc::{AllocError, Global};
use std::test::Fail;

const FIRST: Version = Version {
    epoch: 4,
    number: 1,
};

// What is done where a client writes.
fn written(alloc: Global, object: &Object, context: &Context, op: &Op) -> Result<Done, AllocError> {
    let object = object.clone()?;
    let context = context.meant(alloc)?;
    let op = op.clone()?;
    Ok(Done::Write {
        client: 1,
        serial: 2,
        object,
        context,
        op,
        answer: WriteAnswer::Accepted {
            version: FIRST,
            preempts: None,
        },
    })
}

// What is done where a copy on the OSD 5 changes.
fn damaged(object: &Object, snap: Snap, damage: &Damage) -> Result<Done, AllocError> {
    let object = object.clone()?;
    let damage = damage.clone()?;
    Ok(Done::Damage {
        group: 0,
        osd: 5,
        object,
        snap,
        damage,
        answer: DamageAnswer::Damaged,
    })
}

// Whether a step is printed so once it is done, for a write or damage alone.
fn is_done(alloc: Global, basic: &Basic, wanted: &[u8]) -> Result<bool, AllocError> {
    match basic {
        Basic::Write {
            object,
            context,
            op,
            ..
        } => {
            let done = written(alloc, object, context, op)?;
            says(alloc, done, wanted)
        }
        Basic::Damage {
            object,
            snap,
            damage,
            ..
        } => {
            let done = damaged(object, *snap, damage)?;
            says(alloc, done, wanted)
        }
        _ => Ok(false),
    }
}

fn is_said(alloc: Global, line: &Line, wanted: &[u8]) -> Result<bool, AllocError> {
    match line {
        Line::Step {
            step: Step::Basic { basic },
        } => is_done(alloc, basic, wanted),
        _ => Ok(false),
    }
}

// Whether a line is read, and is printed so once it is done: by the client 1 with the serial 2, or on the OSD 5.
fn is_printed(alloc: Global, line: &[u8], wanted: &[u8]) -> Result<bool, AllocError> {
    match line_in(alloc, line) {
        Ok(line) => {
            let is = is_said(alloc, &line, wanted);
            drop(line);
            is
        }
        Err(_) => Ok(false),
    }
}

#[test]
fn space_and_key_are_printed_as_read(rt: HostRuntime) -> Result<(), Fail> {
    let alloc = rt.alloc();
    assert!(rt;
        is_printed(
            alloc,
            b"write 1 2 s k a - full text:x",
            b"write 1 2 s k a - full text:x : accepted 4'1"
        )?
    );
    assert!(rt;
        is_printed(
            alloc,
            b"damage 0 5 s k a head flip 0 1",
            b"damage 0 5 s k a head flip 0 1 : damaged"
        )?
    );
    Ok(())
}

#[test]
fn key_that_is_name_is_printed_as_dash(rt: HostRuntime) -> Result<(), Fail> {
    let alloc = rt.alloc();
    assert!(rt;
        is_printed(
            alloc,
            b"write 1 2 a a a - full text:x",
            b"write 1 2 a - a - full text:x : accepted 4'1"
        )?
    );
    assert!(rt;
        is_printed(
            alloc,
            b"damage 0 5 - ab ab head flip 0 1",
            b"damage 0 5 - - ab head flip 0 1 : damaged"
        )?
    );
    Ok(())
}

#[test]
fn operations_are_printed_as_read(rt: HostRuntime) -> Result<(), Fail> {
    let rows = [
        (
            b"write 1 2 - - a - write 7 hex:00".as_slice(),
            b"write 1 2 - - a - write 7 hex:00 : accepted 4'1".as_slice(),
        ),
        (
            b"write 1 2 - - a 5 trunc 7".as_slice(),
            b"write 1 2 - - a 5 trunc 7 : accepted 4'1".as_slice(),
        ),
        (
            b"write 1 2 - - a 5:3 attr _b text:c".as_slice(),
            b"write 1 2 - - a 5:3 attr _b text:c : accepted 4'1".as_slice(),
        ),
        (
            b"write 1 2 - - a 5:4,3,0 rmattr _b".as_slice(),
            b"write 1 2 - - a 5:4,3,0 rmattr _b : accepted 4'1".as_slice(),
        ),
        (
            b"write 1 2 - - a 0 omap a fill:3:0a".as_slice(),
            b"write 1 2 - - a - omap a fill:3:0a : accepted 4'1".as_slice(),
        ),
        (
            b"write 1 2 - - a 0:0 rmomap a".as_slice(),
            b"write 1 2 - - a 0:0 rmomap a : accepted 4'1".as_slice(),
        ),
        (
            b"write 1 2 - - a - header text:".as_slice(),
            b"write 1 2 - - a - header text: : accepted 4'1".as_slice(),
        ),
        (
            b"write 1 2 - - a - remove".as_slice(),
            b"write 1 2 - - a - remove : accepted 4'1".as_slice(),
        ),
        (
            b"damage 0 5 - - a 12 flip 0 1".as_slice(),
            b"damage 0 5 - - a 12 flip 0 1 : damaged".as_slice(),
        ),
    ];
    for (line, wanted) in rows {
        assert!(rt; is_printed(rt.alloc(), line, wanted)?);
    }
    Ok(())
}

// Whether a damage with these last words is read, and is printed with the same words once it is done.
fn is_damage(alloc: Global, words: &[u8]) -> Result<bool, AllocError> {
    let mut line = Vec::new(alloc);
    line.extend_from_slice(b"damage 0 5 - - a head ")?;
    line.extend_from_slice(words)?;
    let mut wanted = Vec::new(alloc);
    wanted.extend_from_slice(line.as_slice())?;
    wanted.extend_from_slice(b" : damaged")?;
    is_printed(alloc, line.as_slice(), wanted.as_slice())
}

#[test]
fn damages_are_printed_as_read(rt: HostRuntime) -> Result<(), Fail> {
    let good = [
        b"lose".as_slice(),
        b"flip 4294967295 255".as_slice(),
        b"cut 0".as_slice(),
        b"data hex:00ff".as_slice(),
        b"attr _ text:".as_slice(),
        b"rmattr snapset".as_slice(),
        b"omap - fill:3:0a".as_slice(),
        b"rmomap head".as_slice(),
        b"header text:x:y".as_slice(),
    ];
    for words in good {
        assert!(rt; is_damage(rt.alloc(), words)?);
    }
    let bad = [
        b"lose 1".as_slice(),
        b"cut".as_slice(),
        b"data 1 text:a".as_slice(),
        b"attr text:a".as_slice(),
        b"rmattr".as_slice(),
        b"omap a".as_slice(),
        b"header hex:0".as_slice(),
        b"remove".as_slice(),
    ];
    for words in bad {
        assert!(rt; !is_damage(rt.alloc(), words)?);
    }
    Ok(())
}
