use crate::tests::run::running::{listed, one_by_one, replayed};
use std::test::Fail;

// Two objects in a chunk each, of which one was written again and not yet applied.
const SWEEP: &[u8] = b"pool 0\nosd 0 1\nosd 1 1\ngroup 0 4 0 1\nwrite 1 1 - k a - full text:x\n\
write 1 2 - k b - full text:y\nsettle 0\nwrite 1 3 - k a - full text:z\nsweep 0 deep\nend\n";

const SWEPT: &[u8] =
    b"write 1 1 - k a - full text:x : accepted 4'1\nwrite 1 2 - k b - full text:y : accepted 4'2\n\
pull 0 0 : pulled 0 2\napply 0 0 : applied 1\napply 0 0 : applied 2\napply 0 0 : not-yet 2\n\
tell 0 0 : told 2\npull 0 1 : pulled 0 2\napply 0 1 : applied 1\napply 0 1 : applied 2\n\
apply 0 1 : not-yet 2\ntell 0 1 : told 2\nwrite 1 3 - k a - full text:z : accepted 4'3\n\
begin 0 deep : began 0.1\nclaim 0 : claimed 0 0\nclaim 0 : reserved 1 0\n\
open 0 : opened 1 from min to at - k b version 3 limit 1\npull 0 0 : pulled 2 3 asked 1\n\
scan 0 0 : not-yet 2 3\napply 0 0 : applied 3\nscan 0 0 : found - k a head\n\
scan 0 0 : more\nscan 0 0 : more\nscan 0 0 : passed - k a head\nscan 0 0 : done\n\
take 0 0 : taken 3 10\npull 0 1 : pulled 2 3 asked 1\nscan 0 1 : not-yet 2 3\n\
apply 0 1 : applied 3\nscan 0 1 : found - k a head\nscan 0 1 : more\nscan 0 1 : more\n\
scan 0 1 : passed - k a head\nscan 0 1 : done\ntake 0 1 : taken 3 10\n\
close 0 : closed 1 findings 0 snaps 0\n\
open 0 : opened 2 from at - k b to max version 2 limit 1\npull 0 0 : pulled 3 3 asked 2\n\
scan 0 0 : found - k b head\nscan 0 0 : more\nscan 0 0 : more\n\
scan 0 0 : passed - k b head\nscan 0 0 : done\ntake 0 0 : taken 3 17\n\
pull 0 1 : pulled 3 3 asked 2\nscan 0 1 : found - k b head\nscan 0 1 : more\n\
scan 0 1 : more\nscan 0 1 : passed - k b head\nscan 0 1 : done\ntake 0 1 : taken 3 17\n\
close 0 : closed 2 findings 0 snaps 0 completes\nrelease 0 0 : released 0.1\n\
release 0 1 : released 0.1\nend\n";

#[test]
fn chunks_of_one_position(rt: HostRuntime) -> Result<(), Fail> {
    let sink = replayed(rt.alloc(), one_by_one(5), SWEEP)?;
    assert_eq!(rt; sink.taken(), SWEPT);
    Ok(())
}

// A write in a firm chunk, which is sent twice, and taken up once the chunk is closed.
const PARKING: &[u8] =
    b"pool 0\nosd 0 1\nosd 1 1\nosd 2 1\ngroup 0 4 0 1 2\nwrite 1 1 - k a - full text:x\n\
write 1 2 - k b - full text:y\nsettle 0\nbegin 0 deep\nclaim 0\nclaim 0\nclaim 0\nopen 0\n\
write 1 3 - k b - attr _x text:v\nwrite 1 4 - k a - attr _x text:v\n\
write 1 4 - k a - attr _x text:v\ncollect 0 1 4\npull 0 0\nscan 0 0\nscan 0 0\nscan 0 0\n\
scan 0 0\nscan 0 0\ntake 0 0\npull 0 1\nscan 0 1\nscan 0 1\nscan 0 1\nscan 0 1\nscan 0 1\n\
take 0 1\npull 0 2\nscan 0 2\nscan 0 2\nscan 0 2\nscan 0 2\nscan 0 2\ntake 0 2\nclose 0\n\
write 1 4 - k a - attr _x text:v\nend\n";

const PARKED: &[u8] =
    b"write 1 1 - k a - full text:x : accepted 4'1\nwrite 1 2 - k b - full text:y : accepted 4'2\n\
pull 0 0 : pulled 0 2\napply 0 0 : applied 1\napply 0 0 : applied 2\napply 0 0 : not-yet 2\n\
tell 0 0 : told 2\npull 0 1 : pulled 0 2\napply 0 1 : applied 1\napply 0 1 : applied 2\n\
apply 0 1 : not-yet 2\ntell 0 1 : told 2\npull 0 2 : pulled 0 2\napply 0 2 : applied 1\n\
apply 0 2 : applied 2\napply 0 2 : not-yet 2\ntell 0 2 : told 2\nbegin 0 deep : began 0.1\n\
claim 0 : claimed 0 0\nclaim 0 : claimed 1 0\nclaim 0 : reserved 2 0\n\
open 0 : opened 1 from min to at - k b version 1 limit 1 firm\n\
write 1 3 - k b - attr _x text:v : accepted 4'3\n\
write 1 4 - k a - attr _x text:v : parked from min to at - k b\n\
write 1 4 - k a - attr _x text:v : parked from min to at - k b\n\
collect 0 1 4 : still-parked 1\npull 0 0 : pulled 2 3 asked 1\nscan 0 0 : found - k a head\n\
scan 0 0 : more\nscan 0 0 : more\nscan 0 0 : passed - k a head\nscan 0 0 : done\n\
take 0 0 : taken 2 9\npull 0 1 : pulled 2 3 asked 1\nscan 0 1 : found - k a head\n\
scan 0 1 : more\nscan 0 1 : more\nscan 0 1 : passed - k a head\nscan 0 1 : done\n\
take 0 1 : taken 2 9\npull 0 2 : pulled 2 3 asked 1\nscan 0 2 : found - k a head\n\
scan 0 2 : more\nscan 0 2 : more\nscan 0 2 : passed - k a head\nscan 0 2 : done\n\
take 0 2 : taken 2 9\nclose 0 : closed 1 findings 0 snaps 0\nadmit 1 4 : accepted 4'4\n\
write 1 4 - k a - attr _x text:v : repeat 4'4\nend\n";

#[test]
fn a_write_that_waits(rt: HostRuntime) -> Result<(), Fail> {
    let sink = replayed(rt.alloc(), one_by_one(0), PARKING)?;
    assert_eq!(rt; sink.taken(), PARKED);
    Ok(())
}

// A scan of an OSD that didn't apply the newest write of its chunk.
const WAITING: &[u8] =
    b"pool 0\nosd 0 1\nosd 1 1\nosd 2 1\ngroup 0 4 0 1 2\nwrite 1 1 - k a - full text:x\n\
write 1 2 - k b - full text:y\nwrite 1 3 - k a - full text:z\nsettle 0\n\
write 1 4 - k a - full text:w\nwrite 1 5 - k b - full text:v\nbegin 0 deep\nclaim 0\n\
claim 0\nclaim 0\nopen 0\npull 0 1\nscan 0 1\napply 0 1\napply 0 1\nscan 0 1\nend\n";

const WAITED: &[u8] =
    b"write 1 1 - k a - full text:x : accepted 4'1\nwrite 1 2 - k b - full text:y : accepted 4'2\n\
write 1 3 - k a - full text:z : accepted 4'3\npull 0 0 : pulled 0 3\napply 0 0 : applied 1\n\
apply 0 0 : applied 2\napply 0 0 : applied 3\napply 0 0 : not-yet 3\ntell 0 0 : told 3\n\
pull 0 1 : pulled 0 3\napply 0 1 : applied 1\napply 0 1 : applied 2\napply 0 1 : applied 3\n\
apply 0 1 : not-yet 3\ntell 0 1 : told 3\npull 0 2 : pulled 0 3\napply 0 2 : applied 1\n\
apply 0 2 : applied 2\napply 0 2 : applied 3\napply 0 2 : not-yet 3\ntell 0 2 : told 3\n\
write 1 4 - k a - full text:w : accepted 4'4\nwrite 1 5 - k b - full text:v : accepted 4'5\n\
begin 0 deep : began 0.1\nclaim 0 : claimed 0 0\nclaim 0 : claimed 1 0\n\
claim 0 : reserved 2 0\nopen 0 : opened 1 from min to at - k b version 4 limit 1\n\
pull 0 1 : pulled 3 5 asked 1\nscan 0 1 : not-yet 3 4\napply 0 1 : applied 4\n\
apply 0 1 : applied 5\nscan 0 1 : found - k a head\nend\n";

#[test]
fn a_scan_that_waits(rt: HostRuntime) -> Result<(), Fail> {
    let sink = replayed(rt.alloc(), one_by_one(5), WAITING)?;
    assert_eq!(rt; sink.taken(), WAITED);
    Ok(())
}

// A byte that rotted on a replica, found and listed.
const LISTING: &[u8] =
    b"pool 0\nosd 0 1\nosd 1 1\ngroup 0 4 0 1\nwrite 1 1 - - a - full text:123456789\nsettle 0\n\
damage 0 1 - - a head flip 8 1\nsweep 0 deep\nlist-obj 0\nlist-snap 0\nend\n";

const LISTED: &[u8] = b"{\"epoch\":4,\"inconsistents\":[{\"errors\":[\"data_digest_mismatch\"],\
\"object\":{\"locator\":\"\",\"name\":\"a\",\"nspace\":\"\",\"snap\":\"head\",\"version\":1},\
\"selected_object_info\":{\"data_digest\":\"0x1cf96d7c\",\"prior_version\":\"0'0\",\"size\":9,\
\"version\":\"4'1\",\"whiteout\":false},\"shards\":[{\"data_digest\":\"0x1cf96d7c\",\"errors\":[],\
\"omap_digest\":\"0xb798b438\",\"osd\":0,\"primary\":true,\"size\":9},\
{\"data_digest\":\"0xee92ee7f\",\"errors\":[\"data_digest_mismatch_info\"],\
\"omap_digest\":\"0xb798b438\",\"osd\":1,\"primary\":false,\"size\":9}],\
\"union_shard_errors\":[\"data_digest_mismatch_info\"]}]}\n{\"epoch\":4,\"inconsistents\":[]}\nend\n";

#[test]
fn lists_alone(rt: HostRuntime) -> Result<(), Fail> {
    let sink = listed(rt.alloc(), LISTING)?;
    assert_eq!(rt; sink.taken(), LISTED);
    Ok(())
}
