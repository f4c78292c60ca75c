use crate::tests::run::running::run;
use std::test::Fail;

// Jobs, claims of which one is denied, and changes of who acts, of which one ends a scrub.
const PLANNING: &[u8] =
    b"pool 0\nosd 0 1\nosd 1 2\nosd 2 1\ngroup 0 4 0 1 2\nfail 0 1 write 1\nfail 0 2 list 1\n\
fail 0 0 read 1\nwrite 1 1 - - a - full text:123456789\npull 0 1\napply 0 1\napply 0 1\n\
job 0 deep 5 9\njob 0 shallow 1 2\npick 8\npick 9\nsettle 0\nbegin 0 deep\nclaim 0\n\
claim 0\ninterval 0 2 0\ninterval 0 2 0\nclaim 0\nbegin 0 shallow\nclaim 0\nclaim 0\n\
claim 0\nopen 0\nrelease 0 1\njob 0 shallow 1 2\nunjob 0\nunjob 0\nsweep 0 deep\nend\n";

const PLANNED: &[u8] =
    b"write 1 1 - - a - full text:123456789 : accepted 4'1\npull 0 1 : pulled 0 1\n\
apply 0 1 : device-fault 1\napply 0 1 : applied 1\njob 0 deep 5 9 : queued\n\
job 0 shallow 1 2 : already deep 5 9\npick 8 : none\npick 9 : picked 0 deep\n\
pull 0 0 : pulled 0 1\napply 0 0 : applied 1\napply 0 0 : not-yet 1\ntell 0 0 : told 1\n\
pull 0 1 : pulled 1 1\napply 0 1 : not-yet 1\ntell 0 1 : told 1\npull 0 2 : pulled 0 1\n\
apply 0 2 : applied 1\napply 0 2 : not-yet 1\ntell 0 2 : told 1\nbegin 0 deep : began 0.1\n\
claim 0 : claimed 0 0\nclaim 0 : claimed 1 0\ninterval 0 2 0 : interval 5 ends 0.1\n\
interval 0 2 0 : interval 6\nclaim 0 : no-claim\nbegin 0 shallow : began 0.2\n\
claim 0 : claimed 2 0\nclaim 0 : denied 0 0.1\nclaim 0 : no-claim\nopen 0 : no-scrub\n\
release 0 1 : released 0.1\njob 0 shallow 1 2 : queued\nunjob 0 : dropped\nunjob 0 : none\n\
begin 0 deep : began 0.3\nclaim 0 : denied 2 0.2\nend\n";

#[test]
fn jobs_claims_and_intervals(rt: HostRuntime) -> Result<(), Fail> {
    let (_, sink) = run(rt.alloc(), PLANNING)?;
    assert_eq!(rt; sink.taken(), PLANNED);
    Ok(())
}

// Calls that fail: one ends a scrub, and two are found.
const FAILING: &[u8] =
    b"pool 0\nosd 0 1\nosd 1 2\ngroup 0 4 0 1\nfail 0 1 write 1\nfail 0 1 list 1\n\
fail 0 1 read 1\nfail 0 0 stat 1\nwrite 1 1 - - a - full text:123456789\nsettle 0\n\
sweep 0 deep\nsweep 0 deep\nend\n";

const FAILED: &[u8] =
    b"write 1 1 - - a - full text:123456789 : accepted 4'1\npull 0 0 : pulled 0 1\n\
apply 0 0 : applied 1\napply 0 0 : not-yet 1\ntell 0 0 : told 1\npull 0 1 : pulled 0 1\n\
apply 0 1 : device-fault 1\napply 0 1 : applied 1\napply 0 1 : not-yet 1\n\
tell 0 1 : told 1\nbegin 0 deep : began 0.1\nclaim 0 : claimed 0 0\nclaim 0 : reserved 1 0\n\
open 0 : opened 1 from min to max version 1 limit 25\npull 0 0 : pulled 1 1 asked 1\n\
scan 0 0 : found - - a head\nscan 0 0 : passed - - a head stat-error\nscan 0 0 : done\n\
take 0 0 : taken 1 6\npull 0 1 : pulled 1 1 asked 1\nscan 0 1 : list-fault 2\n\
take 0 1 : fault 2\nrelease 0 0 : released 0.1\nrelease 0 1 : released 0.1\n\
begin 0 deep : began 0.2\nclaim 0 : claimed 0 0\nclaim 0 : reserved 1 0\n\
open 0 : opened 2 from min to max version 1 limit 25\npull 0 0 : pulled 1 1 asked 2\n\
scan 0 0 : found - - a head\nscan 0 0 : more\nscan 0 0 : more\n\
scan 0 0 : passed - - a head\nscan 0 0 : done\ntake 0 0 : taken 1 13\n\
pull 0 1 : pulled 1 1 asked 2\nscan 0 1 : found - - a head\nscan 0 1 : more\n\
scan 0 1 : passed - - a head read-error\nscan 0 1 : done\ntake 0 1 : taken 1 11\n\
close 0 : closed 2 findings 1 snaps 0 completes\nrelease 0 0 : released 0.2\n\
release 0 1 : released 0.2\nend\n";

#[test]
fn calls_that_fail(rt: HostRuntime) -> Result<(), Fail> {
    let (_, sink) = run(rt.alloc(), FAILING)?;
    assert_eq!(rt; sink.taken(), FAILED);
    Ok(())
}

// Two groups over the same two OSDs, which have one slot each.
const SHARING: &[u8] = b"pool 1\nosd 0 1\nosd 1 1\ngroup 1 4 1 0\ngroup 0 4 0 1\n\
write 1 1 - - a - full text:1\nwrite 1 2 - - b - full text:2\n\
write 1 3 - - c - full text:3\ncollect 0 1 1\ncollect 1 1 1\nsettle 0\nsettle 1\n\
collect 0 1 1\ncollect 1 1 1\nbegin 0 deep\nclaim 0\nbegin 1 deep\nclaim 1\nclaim 1\n\
release 1 1\nclaim 0\njob 1 deep 1 2\njob 0 shallow 1 2\npick 2\nsweep 1 deep\nend\n";

const SHARED: &[u8] = b"write 1 1 - - a - full text:1 : accepted 4'1\n\
write 1 2 - - b - full text:2 : accepted 4'2\n\
write 1 3 - - c - full text:3 : accepted 4'1\ncollect 0 1 1 : not-yet 0 0\n\
collect 1 1 1 : unknown\npull 0 0 : pulled 0 2\napply 0 0 : applied 1\n\
apply 0 0 : applied 2\napply 0 0 : not-yet 2\ntell 0 0 : told 2\n\
pull 0 1 : pulled 0 2\napply 0 1 : applied 1\napply 0 1 : applied 2\n\
apply 0 1 : not-yet 2\ntell 0 1 : told 2\npull 1 1 : pulled 0 1\n\
apply 1 1 : applied 1\napply 1 1 : not-yet 1\ntell 1 1 : told 1\n\
pull 1 0 : pulled 0 1\napply 1 0 : applied 1\napply 1 0 : not-yet 1\n\
tell 1 0 : told 1\ncollect 0 1 1 : acked 4'1\ncollect 1 1 1 : unknown\n\
begin 0 deep : began 0.1\nclaim 0 : claimed 0 0\nbegin 1 deep : began 1.1\n\
claim 1 : claimed 1 0\nclaim 1 : denied 0 0.1\nrelease 1 1 : released 1.1\n\
claim 0 : reserved 1 0\njob 1 deep 1 2 : queued\njob 0 shallow 1 2 : queued\n\
pick 2 : picked 0 shallow\nbegin 1 deep : began 1.2\nclaim 1 : denied 1 0.1\nend\n";

#[test]
fn two_groups(rt: HostRuntime) -> Result<(), Fail> {
    let (_, sink) = run(rt.alloc(), SHARING)?;
    assert_eq!(rt; sink.taken(), SHARED);
    Ok(())
}
