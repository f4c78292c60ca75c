use crate::tests::run::running::{one_by_one, replayed};
use std::test::Fail;

// A chunk's steps in their order and before their time, until a write comes to which it gives way.
const STEPS: &[u8] = b"pool 0\nosd 0 1\nosd 1 1\ngroup 0 4 0 1\nwrite 1 1 - k a - full text:x\n\
write 1 2 - k b - full text:y\nsettle 0\nclose 0\nopen 0\nclaim 0\nbegin 0 deep\n\
begin 0 shallow\nopen 0\nclaim 0\nclaim 0\nclaim 0\nopen 0\nopen 0\nrelease 0 1\nclose 0\n\
scan 0 0\npull 0 0\nscan 0 0\nscan 0 0\ntake 0 0\nscan 0 0\nscan 0 0\nscan 0 0\ntake 0 0\n\
take 0 0\nclose 0\npull 0 1\nscan 0 1\nscan 0 1\nscan 0 1\nscan 0 1\nscan 0 1\n\
write 1 3 - k a - full text:z\ntake 0 1\nclose 0\nopen 0\nend\n";

const ANSWERS: &[u8] =
    b"write 1 1 - k a - full text:x : accepted 4'1\nwrite 1 2 - k b - full text:y : accepted 4'2\n\
pull 0 0 : pulled 0 2\napply 0 0 : applied 1\napply 0 0 : applied 2\napply 0 0 : not-yet 2\n\
tell 0 0 : told 2\npull 0 1 : pulled 0 2\napply 0 1 : applied 1\napply 0 1 : applied 2\n\
apply 0 1 : not-yet 2\ntell 0 1 : told 2\nclose 0 : no-chunk\nopen 0 : no-scrub\n\
claim 0 : no-claim\nbegin 0 deep : began 0.1\nbegin 0 shallow : busy 0.1\n\
open 0 : reserving 0\nclaim 0 : claimed 0 0\nclaim 0 : reserved 1 0\nclaim 0 : no-claim\n\
open 0 : opened 1 from min to at - k b version 1 limit 1\nopen 0 : already 1\n\
release 0 1 : not-held\nclose 0 : not-yet 0\nscan 0 0 : idle\n\
pull 0 0 : pulled 2 2 asked 1\nscan 0 0 : found - k a head\nscan 0 0 : more\n\
take 0 0 : not-done\nscan 0 0 : more\nscan 0 0 : passed - k a head\nscan 0 0 : done\n\
take 0 0 : taken 2 9\ntake 0 0 : not-done\nclose 0 : not-yet 1\n\
pull 0 1 : pulled 2 2 asked 1\nscan 0 1 : found - k a head\nscan 0 1 : more\n\
scan 0 1 : more\nscan 0 1 : passed - k a head\nscan 0 1 : done\n\
write 1 3 - k a - full text:z : accepted 4'3 preempts 1\ntake 0 1 : stale none\n\
close 0 : preempted 1 3\nopen 0 : opened 2 from min to at - k b version 3 limit 1\nend\n";

#[test]
fn a_scrub_by_single_steps(rt: HostRuntime) -> Result<(), Fail> {
    let sink = replayed(rt.alloc(), one_by_one(5), STEPS)?;
    assert_eq!(rt; sink.taken(), ANSWERS);
    Ok(())
}
