use pgs_lines::Line;
use pgs_order::{Declarations, after, allows, nothing_said, passed, passes};
use pgs_script::parse_steps;
use pgs_texts::ScriptError;
use std::alloc::{AllocError, Global};
use std::test::Fail;

// How many steps a text has, or why it is refused.
fn said(alloc: Global, text: &[u8]) -> Result<String, AllocError> {
    if text.len() > 16_777_216 {
        return Ok(String::new(alloc));
    }
    match parse_steps(alloc, text) {
        Ok(script) => format!(in alloc; "Steps {}", script.steps.len()),
        Err(ScriptError::BadLine { line }) => format!(in alloc; "BadLine {line}"),
        Err(ScriptError::Limit { line }) => format!(in alloc; "Limit {line}"),
        Err(ScriptError::Memory) => Err(AllocError),
    }
}

#[test]
fn order(rt: HostRuntime) -> Result<(), Fail> {
    let script = nothing_said(rt.alloc());
    let line = Line::Pool { bits: 0 };
    assert!(rt; allows(&script, &line) && !passes(&script, &line));
    let script = after(script, line)?;
    assert!(rt; script.declared.bits.is_some());
    assert!(rt; passed(b"") && passed(b"# \xff") && !passed(b" "));
    Ok(())
}

#[test]
fn declarations(rt: HostRuntime) -> Result<(), Fail> {
    let rows = [
        (b"end\n".as_slice(), "Steps 0"),
        (b"# \xff\n\nend\n".as_slice(), "Steps 0"),
        (
            b"pool 0\nosd 5 8\n\nosd 63 1\n# x\ngroup 0 4 63 5\nend\n".as_slice(),
            "Steps 0",
        ),
        (b"".as_slice(), "BadLine 1"),
        (b"# x".as_slice(), "BadLine 1"),
        (b" \nend\n".as_slice(), "BadLine 1"),
        (b"end\n\n".as_slice(), "BadLine 2"),
        (b"end\n# x\n".as_slice(), "BadLine 2"),
        (b"pool 0\nend\n".as_slice(), "BadLine 2"),
        (b"pool 0\npool 0\n".as_slice(), "BadLine 2"),
        (b"\nosd 0 1\n".as_slice(), "BadLine 2"),
        (b"pool 0\nosd 0 1\nosd 0 1\n".as_slice(), "BadLine 3"),
        (b"pool 0\nosd 64 1\n".as_slice(), "Limit 2"),
        (b"pool 0\nosd 0 9\n".as_slice(), "Limit 2"),
        (b"pool 0\nosd 0 9 x\n".as_slice(), "BadLine 2"),
        (b"pool 0\nosd 0 1\nosd 0 9\n".as_slice(), "BadLine 3"),
        (b"pool 0\nosd 0 1\ngroup 0 1 0 0\n".as_slice(), "BadLine 3"),
        (b"pool 0\nosd 0 1\ngroup 0 1 1\n".as_slice(), "BadLine 3"),
        (b"pool 0\nosd 0 1\ngroup 1 1 0\n".as_slice(), "BadLine 3"),
        (b"pool 0\nosd 0 1\ngroup 0 0 0\n".as_slice(), "BadLine 3"),
        (b"pool 0\nosd 0 1\nsettle 0\n".as_slice(), "BadLine 3"),
        (b"settle 0\n".as_slice(), "BadLine 1"),
    ];
    for (text, wanted) in rows {
        let answer = said(rt.alloc(), text)?;
        assert_eq!(rt; answer.as_str(), wanted);
    }
    Ok(())
}

#[test]
fn pools(rt: HostRuntime) -> Result<(), Fail> {
    let rows = [
        (
            b"pool 1\nosd 0 1\ngroup 1 2 0\ngroup 0 1 0\nsettle 1\nend\n".as_slice(),
            "Steps 1",
        ),
        (
            b"pool 3\nosd 0 1\ngroup 5 1 0\ngroup 0 1 0\ngroup 7 1 0\ngroup 2 1 0\ngroup 6 1 0\ngroup 1 1 0\ngroup 4 1 0\ngroup 3 1 0\nsettle 7\nsettle 3\nend\n".as_slice(),
            "Steps 2",
        ),
        (b"pool 4\n".as_slice(), "Limit 1"),
        (b"pool 4294967295\n".as_slice(), "Limit 1"),
        (b"pool 4 0\n".as_slice(), "BadLine 1"),
        (b"pool 1\npool 1\n".as_slice(), "BadLine 2"),
        (b"pool 3\npool 4\n".as_slice(), "BadLine 2"),
        (b"pool 1\nosd 0 1\npool 1\n".as_slice(), "BadLine 3"),
        (
            b"pool 1\nosd 0 1\ngroup 1 1 0\nend\n".as_slice(),
            "BadLine 4",
        ),
        (
            b"pool 1\nosd 0 1\ngroup 1 1 0\nsettle 1\n".as_slice(),
            "BadLine 4",
        ),
        (
            b"pool 1\nosd 0 1\ngroup 0 1 0\nfail 0 0 list 1\n".as_slice(),
            "BadLine 4",
        ),
        (
            b"pool 3\nosd 0 1\ngroup 5 1 0\ngroup 0 1 0\ngroup 7 1 0\ngroup 2 1 0\ngroup 6 1 0\ngroup 1 1 0\ngroup 3 1 0\nsettle 7\nend\n".as_slice(),
            "BadLine 10",
        ),
        (b"pool 1\nosd 0 1\ngroup 2 1 0\n".as_slice(), "BadLine 3"),
        (b"pool 3\nosd 0 1\ngroup 8 1 0\n".as_slice(), "BadLine 3"),
        (
            b"pool 1\nosd 0 1\ngroup 1 1 0\ngroup 1 1 0\n".as_slice(),
            "BadLine 4",
        ),
        (
            b"pool 1\nosd 0 1\nosd 1 1\ngroup 0 1 0\ngroup 1 1 1\npull 0 1\n".as_slice(),
            "BadLine 6",
        ),
    ];
    for (text, wanted) in rows {
        let answer = said(rt.alloc(), text)?;
        assert_eq!(rt; answer.as_str(), wanted);
    }
    Ok(())
}

// How many calls fail of the device by which the OSD 1 stores a group, and the epoch in which the group begins.
fn told_of(alloc: Global, declared: &Declarations, group: u32) -> Result<String, AllocError> {
    let fails = declared.failing(alloc, group, 1)?;
    match declared.group(group) {
        Some(found) => format!(in alloc; "{} {}", fails.len(), found.epoch),
        None => format!(in alloc; "{} none", fails.len()),
    }
}

#[test]
fn groups_are_found(rt: HostRuntime) -> Result<(), Fail> {
    let alloc = rt.alloc();
    let text =
        b"pool 1\nosd 0 1\nosd 1 1\ngroup 1 7 1\ngroup 0 4 0 1\nfail 0 1 write 2\nfail 0 0 write 2\nfail 1 1 read 1\nfail 0 1 list 2\nend\n".as_slice();
    let script = parse_steps(alloc, text)?;
    let rows = [(0, "2 4"), (1, "1 7"), (2, "0 none")];
    for (group, wanted) in rows {
        let answer = told_of(alloc, &script.declared, group)?;
        assert_eq!(rt; answer.as_str(), wanted);
    }
    Ok(())
}

// A script with one group of the OSDs 0 and 2, and what follows.
fn followed(alloc: Global, rest: &[u8]) -> Result<String, AllocError> {
    let mut text = Vec::new(alloc);
    text.extend_from_slice(b"pool 0\nosd 0 1\nosd 1 1\nosd 2 1\ngroup 0 4 2 0\n")?;
    text.extend_from_slice(rest)?;
    said(alloc, text.as_slice())
}

#[test]
fn steps(rt: HostRuntime) -> Result<(), Fail> {
    let rows = [
        (
            b"write 1 1 - - a - full fill:9:00\ncollect 0 1 1\npull 0 2\napply 0 2\ntell 0 2\nend\n".as_slice(),
            "Steps 5",
        ),
        (
            b"damage 0 0 - - a head flip 0 1\n#\nsettle 0\nsweep 0 deep\nsweep 0 deep\nend\n".as_slice(),
            "Steps 4",
        ),
        (b"settle 0\n".as_slice(), "BadLine 7"),
        (b"settle 0\nend".as_slice(), "BadLine 7"),
        (b"osd 3 1\n".as_slice(), "BadLine 6"),
        (b"group 0 4 0\n".as_slice(), "BadLine 6"),
        (b"pool 0\n".as_slice(), "BadLine 6"),
        (b"settle 1\n".as_slice(), "BadLine 6"),
        (b"pull 0 1\n".as_slice(), "BadLine 6"),
        (b"apply 0 3\n".as_slice(), "BadLine 6"),
        (b"tell 1 0\n".as_slice(), "BadLine 6"),
        (b"collect 1 1 1\n".as_slice(), "BadLine 6"),
        (b"sweep 0 repair\n".as_slice(), "BadLine 6"),
        (
            b"write 1 1 s k a - full text:\ndamage 0 0 s k a head flip 0 1\nend\n".as_slice(),
            "Steps 2",
        ),
        (b"damage 0 1 - - a head flip 0 1\n".as_slice(), "BadLine 6"),
        (
            b"begin 0 deep\nopen 0\nscan 0 2\ntake 0 2\nclose 0\nend\n".as_slice(),
            "Steps 5",
        ),
        (b"list-obj 0\nlist-snap 0\nend\n".as_slice(), "Steps 2"),
        (b"list-obj 1\n".as_slice(), "BadLine 6"),
        (b"list-snap 1\n".as_slice(), "BadLine 6"),
        (b"begin 1 deep\n".as_slice(), "BadLine 6"),
        (b"open 1\n".as_slice(), "BadLine 6"),
        (b"scan 0 1\n".as_slice(), "BadLine 6"),
        (b"take 0 1\n".as_slice(), "BadLine 6"),
        (b"close 1\n".as_slice(), "BadLine 6"),
    ];
    for (rest, wanted) in rows {
        let answer = followed(rt.alloc(), rest)?;
        assert_eq!(rt; answer.as_str(), wanted);
    }
    Ok(())
}

#[test]
fn steps_of_plans(rt: HostRuntime) -> Result<(), Fail> {
    let rows = [
        (
            b"interval 0 0\ninterval 0 0 2\nclaim 0\nrelease 0 2\njob 0 deep 255 7\nunjob 0\npick 0\nend\n".as_slice(),
            "Steps 7",
        ),
        (b"interval 0 1\n".as_slice(), "BadLine 6"),
        (b"interval 0 2 1\n".as_slice(), "BadLine 6"),
        (b"interval 0 2 2\n".as_slice(), "BadLine 6"),
        (b"interval 1 2\n".as_slice(), "BadLine 6"),
        (b"claim 1\n".as_slice(), "BadLine 6"),
        (b"release 0 1\n".as_slice(), "BadLine 6"),
        (b"job 1 deep 0 0\n".as_slice(), "BadLine 6"),
        (b"unjob 1\n".as_slice(), "BadLine 6"),
        (b"fail 0 2 list 1\nclaim 0\nend\n".as_slice(), "Steps 1"),
        (b"fail 0 1 list 1\n".as_slice(), "BadLine 6"),
        (b"claim 0\nfail 0 2 list 1\n".as_slice(), "BadLine 7"),
    ];
    for (rest, wanted) in rows {
        let answer = followed(rt.alloc(), rest)?;
        assert_eq!(rt; answer.as_str(), wanted);
    }
    Ok(())
}

// A script with so many calls that fail, all the same.
fn with_fails(alloc: Global, count: u32) -> Result<String, AllocError> {
    let mut text = Vec::new(alloc);
    for _ in 0..count {
        text.extend_from_slice(b"fail 0 2 read 1\n")?;
    }
    text.extend_from_slice(b"end\n")?;
    followed(alloc, text.as_slice())
}

#[test]
fn limit_of_failing_calls(rt: HostRuntime) -> Result<(), Fail> {
    let most = with_fails(rt.alloc(), 1_000)?;
    assert_eq!(rt; most.as_str(), "Steps 0");
    let more = with_fails(rt.alloc(), 1_001)?;
    assert_eq!(rt; more.as_str(), "Limit 1006");
    Ok(())
}

// A pool with so many OSDs, and what follows.
fn with_osds(alloc: Global, count: u32, rest: &[u8]) -> Result<String, AllocError> {
    let mut text = Vec::new(alloc);
    text.extend_from_slice(b"pool 0\n")?;
    for osd in 0..count {
        let line = format!(in alloc; "osd {osd} 1\n")?;
        text.extend_from_slice(line.as_bytes())?;
    }
    text.extend_from_slice(rest)?;
    said(alloc, text.as_slice())
}

#[test]
fn limits(rt: HostRuntime) -> Result<(), Fail> {
    let alloc = rt.alloc();
    let nine = with_osds(alloc, 16, b"group 0 1 0 1 2 3 4 5 6 7 8\n")?;
    assert_eq!(rt; nine.as_str(), "Limit 18");
    let eight = with_osds(alloc, 16, b"group 0 1 0 1 2 3 4 5 6 15\nend\n")?;
    assert_eq!(rt; eight.as_str(), "Steps 0");
    let twice = with_osds(alloc, 16, b"group 0 1 0 1 2 3 4 5 6 7 7\n")?;
    assert_eq!(rt; twice.as_str(), "BadLine 18");
    let more = with_osds(alloc, 17, b"")?;
    assert_eq!(rt; more.as_str(), "Limit 18");
    let again = with_osds(alloc, 16, b"osd 15 1\n")?;
    assert_eq!(rt; again.as_str(), "BadLine 18");
    Ok(())
}

// A script with one group, and a write with so many snaps 1 in its context.
fn with_snaps(alloc: Global, count: u32) -> Result<String, AllocError> {
    let mut text = Vec::new(alloc);
    text.extend_from_slice(b"write 1 1 - - a 1:1")?;
    for _ in 1..count {
        text.extend_from_slice(b",1")?;
    }
    text.extend_from_slice(b" remove\nend\n")?;
    followed(alloc, text.as_slice())
}

#[test]
fn limits_of_steps(rt: HostRuntime) -> Result<(), Fail> {
    let alloc = rt.alloc();
    let most = with_snaps(alloc, 64)?;
    assert_eq!(rt; most.as_str(), "Steps 1");
    let more = with_snaps(alloc, 65)?;
    assert_eq!(rt; more.as_str(), "Limit 6");
    let rows = [
        (
            b"write 1 1 - - a - attr _a fill:65536:00\nend\n".as_slice(),
            "Steps 1",
        ),
        (
            b"write 1 1 - - a - attr _a fill:65537:00\n".as_slice(),
            "Limit 6",
        ),
        (
            b"write 1 1 - - a - omap a fill:65537:00\n".as_slice(),
            "Limit 6",
        ),
        (
            b"write 1 1 - - a - header fill:65537:00\n".as_slice(),
            "Limit 6",
        ),
        (
            b"write 1 1 - - a - write 1 fill:65537:00\nend\n".as_slice(),
            "Steps 1",
        ),
        (
            b"write 1 1 - - a - header fill:65537:00 x\n".as_slice(),
            "BadLine 6",
        ),
        (b"damage 0 0 - - a 1 flip 0 1\nend\n".as_slice(), "Steps 1"),
        (b"damage 0 0 - - a 0 flip 0 1\n".as_slice(), "BadLine 6"),
        (
            b"damage 0 0 - - a head data fill:4194304:00\ndamage 0 0 - - a head header fill:65536:00\nend\n".as_slice(),
            "Steps 2",
        ),
        (
            b"damage 0 0 - - a head data fill:4194305:00\n".as_slice(),
            "Limit 6",
        ),
        (
            b"damage 0 0 - - a head attr snapset fill:65537:00\n".as_slice(),
            "Limit 6",
        ),
        (
            b"damage 0 0 - - a head omap a fill:65537:00\n".as_slice(),
            "Limit 6",
        ),
        (
            b"damage 0 0 - - a head header fill:65537:00\n".as_slice(),
            "Limit 6",
        ),
    ];
    for (rest, wanted) in rows {
        let answer = followed(alloc, rest)?;
        assert_eq!(rt; answer.as_str(), wanted);
    }
    Ok(())
}
