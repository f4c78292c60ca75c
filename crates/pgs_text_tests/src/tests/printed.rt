use super::printing::{object, says};
use pgs_bytes::Bytes;
use pgs_done::{ApplyAnswer, Bound, CollectAnswer, DamageAnswer, Done, Range, WriteAnswer};
use pgs_lines::{Damage, Object, Snap};
use pgs_request::{Declined, Op, Payload, Refusal, SnapContext, Snaps, Version};
use std::alloc::{AllocError, Global};
use std::test::Fail;

const FIRST: Version = Version {
    epoch: 4,
    number: 1,
};

fn written(alloc: Global, object: Object, payload: Payload, answer: WriteAnswer) -> Done {
    Done::Write {
        client: 7,
        serial: 2,
        object,
        context: SnapContext {
            seq: 0,
            snaps: Snaps::new(alloc),
        },
        op: Op::Full { payload },
        answer,
    }
}

fn write(alloc: Global, payload: Payload, answer: WriteAnswer) -> Result<Done, AllocError> {
    match object(alloc, b"a") {
        Ok(object) => Ok(written(alloc, object, payload, answer)),
        Err(error) => {
            drop(payload);
            drop(answer);
            Err(error)
        }
    }
}

fn refused(refusal: Refusal) -> WriteAnswer {
    WriteAnswer::Declined {
        declined: Declined::Refused { refusal },
    }
}

fn text(alloc: Global) -> Result<Payload, AllocError> {
    Ok(Payload::Text {
        bytes: Bytes::from_slice(alloc, b"x:y")?,
    })
}

#[test]
fn writes(rt: HostRuntime) -> Result<(), Fail> {
    let alloc = rt.alloc();
    let done = write(
        alloc,
        text(alloc)?,
        WriteAnswer::Accepted {
            version: FIRST,
            preempts: None,
        },
    )?;
    assert!(rt;
        says(
            alloc,
            done,
            b"write 7 2 - - a - full text:x:y : accepted 4'1"
        )?
    );
    let declined = Declined::Repeat { version: FIRST };
    let done = write(alloc, text(alloc)?, WriteAnswer::Declined { declined })?;
    assert!(rt; says(alloc, done, b"write 7 2 - - a - full text:x:y : repeat 4'1")?);
    let fill = Payload::Fill {
        count: 4_294_967_295,
        byte: 10,
    };
    let much = refused(Refusal::ObjectTooLarge {
        size: 4_294_967_295,
    });
    let done = write(alloc, fill, much)?;
    assert!(rt;
        says(
            alloc,
            done,
            b"write 7 2 - - a - full fill:4294967295:0a : object-too-large 4294967295"
        )?
    );
    let hex = Payload::Hex {
        bytes: Bytes::from_slice(alloc, [0, 255].as_slice())?,
    };
    let done = write(
        alloc,
        hex,
        refused(Refusal::StoreFull { bytes: 33_555_158 }),
    )?;
    assert!(rt;
        says(
            alloc,
            done,
            b"write 7 2 - - a - full hex:00ff : store-full 33555158"
        )?
    );
    let done = write(alloc, text(alloc)?, refused(Refusal::LogFull { bytes: 9 }))?;
    assert!(rt; says(alloc, done, b"write 7 2 - - a - full text:x:y : log-full 9")?);
    Ok(())
}

#[test]
fn refused_writes(rt: HostRuntime) -> Result<(), Fail> {
    let alloc = rt.alloc();
    let done = write(alloc, text(alloc)?, refused(Refusal::NoSuchObject))?;
    assert!(rt;
        says(
            alloc,
            done,
            b"write 7 2 - - a - full text:x:y : no-such-object"
        )?
    );
    let declined = Declined::BadSnapContext { place: 63 };
    let done = write(alloc, text(alloc)?, WriteAnswer::Declined { declined })?;
    assert!(rt;
        says(
            alloc,
            done,
            b"write 7 2 - - a - full text:x:y : bad-snap-context 63"
        )?
    );
    Ok(())
}

fn admit(answer: WriteAnswer) -> Done {
    Done::Admit {
        client: 7,
        serial: 2,
        answer,
    }
}

// A range from the first object up to the object `b`.
fn range(alloc: Global) -> Result<Range, AllocError> {
    Ok(Range {
        from: Bound::Min,
        to: Bound::At {
            object: object(alloc, b"b")?,
        },
    })
}

fn parked(alloc: Global) -> Result<Done, AllocError> {
    let range = range(alloc)?;
    let fill = Payload::Fill { count: 9, byte: 0 };
    write(alloc, fill, WriteAnswer::Parked { range })
}

#[test]
fn parked_writes(rt: HostRuntime) -> Result<(), Fail> {
    let alloc = rt.alloc();
    assert!(rt;
        says(
            alloc,
            parked(alloc)?,
            b"write 7 2 - - a - full fill:9:00 : parked from min to at - - b"
        )?
    );
    let fill = Payload::Fill { count: 9, byte: 0 };
    let done = write(alloc, fill, WriteAnswer::QueueFull { count: 1_024 })?;
    assert!(rt;
        says(
            alloc,
            done,
            b"write 7 2 - - a - full fill:9:00 : queue-full 1024"
        )?
    );
    Ok(())
}

fn accepted(preempts: Option<u64>) -> Done {
    admit(WriteAnswer::Accepted {
        version: FIRST,
        preempts,
    })
}

#[test]
fn admitted_writes(rt: HostRuntime) -> Result<(), Fail> {
    let alloc = rt.alloc();
    assert!(rt;
        says(
            alloc,
            accepted(Some(3)),
            b"admit 7 2 : accepted 4'1 preempts 3"
        )?
    );
    assert!(rt; says(alloc, accepted(None), b"admit 7 2 : accepted 4'1")?);
    let full = refused(Refusal::LogFull { bytes: 9 });
    assert!(rt; says(alloc, admit(full), b"admit 7 2 : log-full 9")?);
    Ok(())
}

#[test]
fn collects(rt: HostRuntime) -> Result<(), Fail> {
    let alloc = rt.alloc();
    let rows = [
        (
            CollectAnswer::Acked { version: FIRST },
            b"collect 0 7 2 : acked 4'1".as_slice(),
        ),
        (
            CollectAnswer::NotYet { osd: 3, told: 0 },
            b"collect 0 7 2 : not-yet 3 0".as_slice(),
        ),
        (
            CollectAnswer::Unknown,
            b"collect 0 7 2 : unknown".as_slice(),
        ),
        (
            CollectAnswer::StillParked { chunk: 3 },
            b"collect 0 7 2 : still-parked 3".as_slice(),
        ),
        (
            CollectAnswer::Refused {
                refusal: Refusal::StoreFull { bytes: 9 },
            },
            b"collect 0 7 2 : refused store-full 9".as_slice(),
        ),
        (
            CollectAnswer::Refused {
                refusal: Refusal::NoSuchObject,
            },
            b"collect 0 7 2 : refused no-such-object".as_slice(),
        ),
    ];
    for (answer, wanted) in rows {
        let done = Done::Collect {
            group: 0,
            client: 7,
            serial: 2,
            answer,
        };
        assert!(rt; says(alloc, done, wanted)?);
    }
    Ok(())
}

#[test]
fn applies(rt: HostRuntime) -> Result<(), Fail> {
    let alloc = rt.alloc();
    let rows = [
        (
            ApplyAnswer::Applied {
                number: 18_446_744_073_709_551_615,
                drops: None,
            },
            b"apply 0 5 : applied 18446744073709551615".as_slice(),
        ),
        (
            ApplyAnswer::Applied {
                number: 4,
                drops: Some(2),
            },
            b"apply 0 5 : applied 4 drops 2".as_slice(),
        ),
        (
            ApplyAnswer::NotYet { applied: 3 },
            b"apply 0 5 : not-yet 3".as_slice(),
        ),
        (
            ApplyAnswer::DeviceFault { count: 1 },
            b"apply 0 5 : device-fault 1".as_slice(),
        ),
    ];
    for (answer, wanted) in rows {
        let done = Done::Apply {
            group: 0,
            osd: 5,
            answer,
        };
        assert!(rt; says(alloc, done, wanted)?);
    }
    Ok(())
}

fn pull(asked: Option<u64>) -> Done {
    Done::Pull {
        group: 0,
        osd: 5,
        from: 1,
        to: 3,
        asked,
    }
}

#[test]
fn others(rt: HostRuntime) -> Result<(), Fail> {
    let alloc = rt.alloc();
    assert!(rt; says(alloc, pull(None), b"pull 0 5 : pulled 1 3")?);
    assert!(rt; says(alloc, pull(Some(2)), b"pull 0 5 : pulled 1 3 asked 2")?);
    let done = Done::Tell {
        group: 0,
        osd: 5,
        applied: 3,
    };
    assert!(rt; says(alloc, done, b"tell 0 5 : told 3")?);
    let done = Done::Damage {
        group: 0,
        osd: 5,
        object: object(alloc, b":")?,
        snap: Snap::Head,
        damage: Damage::Flip { at: 9, xor: 255 },
        answer: DamageAnswer::ShardFull { bytes: 67_108_865 },
    };
    assert!(rt;
        says(
            alloc,
            done,
            b"damage 0 5 - - : head flip 9 255 : shard-full 67108865"
        )?
    );
    let done = Done::Damage {
        group: 0,
        osd: 5,
        object: object(alloc, b"a")?,
        snap: Snap::Head,
        damage: Damage::Lose,
        answer: DamageAnswer::BeingRead,
    };
    assert!(rt; says(alloc, done, b"damage 0 5 - - a head lose : being-read")?);
    Ok(())
}

// A list that holds nothing.
fn listed(alloc: Global) -> Result<Done, AllocError> {
    Ok(Done::Listed {
        text: Bytes::from_slice(alloc, b"{}")?,
    })
}

#[test]
fn lists(rt: HostRuntime) -> Result<(), Fail> {
    let alloc = rt.alloc();
    let done = listed(alloc)?;
    assert!(rt; done.is_listed());
    assert!(rt; says(alloc, done, b"{}")?);
    Ok(())
}
