use crate::tests::run::running::run;
use pgs_bytes::Bytes;
use pgs_chunk::Settings;
use pgs_edge::{MemSink, MemSource};
use pgs_script::{Declarations, parse_steps};
use pgs_top::{replay, top};
use std::alloc::{AllocError, Global};
use std::test::Fail;

// A write, its acknowledgement, and a damage that a sweep finds.
const SCRIPT: &[u8] =
    b"pool 0\nosd 0 1\nosd 5 1\ngroup 0 4 5 0\nwrite 1 2 - - a - full hex:00ff\ncollect 0 1 2\n\
settle 0\ncollect 0 1 2\nwrite 1 2 - - b - full text:x\ndamage 0 0 - - a head flip 1 1\n\
sweep 0 deep\nclose 0\nend\n";

const WRITTEN: &[u8] =
    b"write 1 2 - - a - full hex:00ff : accepted 4'1\ncollect 0 1 2 : not-yet 5 0\n\
pull 0 5 : pulled 0 1\napply 0 5 : applied 1\napply 0 5 : not-yet 1\ntell 0 5 : told 1\n\
pull 0 0 : pulled 0 1\napply 0 0 : applied 1\napply 0 0 : not-yet 1\ntell 0 0 : told 1\n\
collect 0 1 2 : acked 4'1\nwrite 1 2 - - b - full text:x : repeat 4'1\n\
damage 0 0 - - a head flip 1 1 : damaged\nbegin 0 deep : began 0.1\nclaim 0 : claimed 5 0\n\
claim 0 : reserved 0 0\nopen 0 : opened 1 from min to max version 1 limit 25\n\
pull 0 5 : pulled 1 1 asked 1\nscan 0 5 : found - - a head\nscan 0 5 : more\n\
scan 0 5 : more\nscan 0 5 : passed - - a head\nscan 0 5 : done\ntake 0 5 : taken 1 8\n\
pull 0 0 : pulled 1 1 asked 1\nscan 0 0 : found - - a head\nscan 0 0 : more\n\
scan 0 0 : more\nscan 0 0 : passed - - a head\nscan 0 0 : done\ntake 0 0 : taken 1 9\n\
close 0 : closed 1 findings 1 snaps 0 completes\nrelease 0 5 : released 0.1\n\
release 0 0 : released 0.1\nclose 0 : closed-before 1\nend\n";

#[test]
fn one_run(rt: HostRuntime) -> Result<(), Fail> {
    let (status, sink) = run(rt.alloc(), SCRIPT)?;
    assert_eq!(rt; status.number(), 0);
    assert_eq!(rt; sink.taken(), WRITTEN);
    Ok(())
}

// Writes to which chunks give way, until one is firm.
const PREEMPTING: &[u8] =
    b"pool 0\nosd 0 1\nosd 1 1\nosd 2 1\ngroup 0 4 0 1 2\nwrite 1 1 - - a - full text:123456789\n\
settle 0\nbegin 0 deep\nclaim 0\nclaim 0\nclaim 0\nopen 0\n\
write 1 2 - - a - attr _x text:v\nopen 0\nwrite 1 3 - - a - attr _x text:v\nopen 0\n\
write 1 4 - - a - attr _x text:v\nopen 0\nwrite 1 5 - - a - attr _x text:v\nopen 0\n\
write 1 6 - - a - attr _x text:v\nopen 0\nwrite 1 7 - - a - attr _x text:v\nend\n";

const PREEMPTED: &[u8] =
    b"write 1 1 - - a - full text:123456789 : accepted 4'1\npull 0 0 : pulled 0 1\n\
apply 0 0 : applied 1\napply 0 0 : not-yet 1\ntell 0 0 : told 1\npull 0 1 : pulled 0 1\n\
apply 0 1 : applied 1\napply 0 1 : not-yet 1\ntell 0 1 : told 1\npull 0 2 : pulled 0 1\n\
apply 0 2 : applied 1\napply 0 2 : not-yet 1\ntell 0 2 : told 1\nbegin 0 deep : began 0.1\n\
claim 0 : claimed 0 0\nclaim 0 : claimed 1 0\nclaim 0 : reserved 2 0\n\
open 0 : opened 1 from min to max version 1 limit 25\n\
write 1 2 - - a - attr _x text:v : accepted 4'2 preempts 1\n\
open 0 : opened 2 from min to max version 2 limit 12\n\
write 1 3 - - a - attr _x text:v : accepted 4'3 preempts 2\n\
open 0 : opened 3 from min to max version 3 limit 6\n\
write 1 4 - - a - attr _x text:v : accepted 4'4 preempts 3\n\
open 0 : opened 4 from min to max version 4 limit 5\n\
write 1 5 - - a - attr _x text:v : accepted 4'5 preempts 4\n\
open 0 : opened 5 from min to max version 5 limit 5\n\
write 1 6 - - a - attr _x text:v : accepted 4'6 preempts 5\n\
open 0 : opened 6 from min to max version 6 limit 5 firm\n\
write 1 7 - - a - attr _x text:v : parked from min to max\nend\n";

#[test]
fn chunks_that_give_way(rt: HostRuntime) -> Result<(), Fail> {
    let (_, sink) = run(rt.alloc(), PREEMPTING)?;
    assert_eq!(rt; sink.taken(), PREEMPTED);
    Ok(())
}

// The status of a run without words.
fn without_words(alloc: Global) -> Result<u8, AllocError> {
    let text = Bytes::from_slice(alloc, b"end\n")?;
    let mut source = MemSource::new(text, 64, Vec::new(alloc));
    let mut sink = MemSink::new(alloc, 8, Vec::new(alloc), Vec::new(alloc));
    let words = Vec::new(alloc);
    let status = top(alloc, words.as_slice(), &mut source, &mut sink).status;
    Ok(status.number())
}

// The status of a script that declares nothing, and whether no world was kept.
fn of_nothing(alloc: Global) -> Result<(u8, bool), AllocError> {
    let text = Bytes::from_slice(alloc, b"end\n")?;
    let mut source = MemSource::new(text, 64, Vec::new(alloc));
    let mut sink = MemSink::new(alloc, 8, Vec::new(alloc), Vec::new(alloc));
    let ended = replay(alloc, Settings::usual(), &mut source, &mut sink);
    Ok((ended.status.number(), ended.kept.world.is_none()))
}

#[test]
fn other_words_than_replay(rt: HostRuntime) -> Result<(), Fail> {
    let alloc = rt.alloc();
    assert_eq!(rt; without_words(alloc)?, 2);
    assert_eq!(rt; of_nothing(alloc)?, (0, true));
    Ok(())
}

#[test]
fn what_a_script_declares(rt: HostRuntime) -> Result<(), Fail> {
    let alloc = rt.alloc();
    assert!(rt; parse_steps(alloc, b"end\n")?.over);
    assert!(rt; Declarations::new(alloc).bits.is_none());
    Ok(())
}
