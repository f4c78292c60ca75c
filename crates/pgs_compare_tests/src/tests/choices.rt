//! Which copy is chosen.
use crate::cases::{Case, of_one, wrong};
use crate::sketch::{DATA, InfoAttr, OMAP, Sketch, head, recorded};
use pgs_name::HEAD;
use std::test::Fail;

// A head at a version.
fn at_version(epoch: u32, number: u64) -> Sketch {
    head().with_info(recorded(HEAD).at_version(epoch, number))
}

// A head at the version 4'2 whose info records these digests.
fn recording(data: Option<u32>, omap: Option<u32>) -> Sketch {
    head().with_info(recorded(HEAD).with_digests(data, omap))
}

fn by_version() -> [Case; 5] {
    let good = head();
    let newer = at_version(4, 3);
    let bare = head().with_info(recorded(HEAD).with_digests(None, None).at_version(4, 3));
    [
        of_one(
            "a greater version over the primary",
            [Some(good), Some(newer), Some(good)],
            "head, 5 chosen: object_info_inconsistency; 4:; 5:; 6:\n",
        ),
        of_one(
            "epochs before numbers",
            [Some(at_version(4, 9)), Some(good), Some(at_version(5, 1))],
            "head, 6 chosen: object_info_inconsistency; 4:; 5:; 6:\n",
        ),
        of_one(
            "versions before recorded digests",
            [Some(good), Some(bare), Some(good)],
            "head, 5 chosen: object_info_inconsistency; 4:; 5:; 6:\n",
        ),
        of_one(
            "a greater version with an error",
            [Some(good), Some(newer.unread()), Some(good)],
            "head, 4 chosen: object_info_inconsistency; 4:; 5: read_error; 6:\n",
        ),
        of_one(
            "a greater version with another digest than it records",
            [Some(good), Some(newer.with_other_data()), Some(good)],
            "head, 4 chosen: object_info_inconsistency data_digest_mismatch; 4:; 5: data_digest_mismatch_info; 6:\n",
        ),
    ]
}

fn by_digests_and_place() -> [Case; 6] {
    let good = head();
    let none = recording(None, None);
    let data = recording(Some(DATA), None);
    let omap = recording(None, Some(OMAP));
    [
        of_one(
            "two recorded digests over one",
            [Some(data), Some(omap), Some(good)],
            "head, 6 chosen: object_info_inconsistency; 4:; 5:; 6:\n",
        ),
        of_one(
            "one recorded digest over none",
            [Some(none), Some(omap), Some(none)],
            "head, 5 chosen: object_info_inconsistency; 4:; 5:; 6:\n",
        ),
        of_one(
            "one recorded digest of each kind",
            [Some(omap), Some(data), Some(none)],
            "head, 4 chosen: object_info_inconsistency; 4:; 5:; 6:\n",
        ),
        of_one(
            "the earlier place",
            [None, Some(good), Some(good.with_color(Some("blue")))],
            "head, 5 chosen: attr_value_mismatch; 4: missing; 5:; 6:\n",
        ),
        of_one(
            "another digest at the primary",
            [Some(good.with_other_data()), Some(good), Some(good)],
            "head, 5 chosen: data_digest_mismatch; 4: data_digest_mismatch_info; 5:; 6:\n",
        ),
        of_one(
            "the last replica alone",
            [None, None, Some(good)],
            "head, 6 chosen:; 4: missing; 5: missing; 6:\n",
        ),
    ]
}

// Where none is chosen, nothing is found by digests or among the copies.
fn of_none() -> [Case; 6] {
    let good = head();
    let data = good.with_other_data();
    let both = good.with_digests(Some(33), Some(44));
    let no_info = good.with_info_attr(InfoAttr::Absent);
    let untold = good.without_digests();
    [
        of_one(
            "other digests than each records",
            [Some(data), Some(both), Some(good.with_other_omap())],
            "",
        ),
        of_one(
            "the same beside a missing copy",
            [Some(data), Some(both), None],
            "head, none chosen:; 4:; 5:; 6: missing\n",
        ),
        of_one(
            "no infos",
            [
                Some(no_info),
                Some(no_info.with_size(9).with_other_data()),
                Some(no_info.with_color(None)),
            ],
            "head, none chosen:; 4: info_missing; 5: info_missing; 6: info_missing\nsnaps of head: info_missing; missing:; extra:\n",
        ),
        of_one(
            "none could be looked at",
            [
                Some(good.unstated()),
                Some(good.unstated()),
                Some(good.unstated()),
            ],
            "head, none chosen:; 4: stat_error; 5: stat_error; 6: stat_error\n",
        ),
        // Where no digests are told, each copy is chosen as ever.
        of_one("no digests", [Some(untold), Some(untold), Some(untold)], ""),
        of_one(
            "digests of some",
            [Some(good), Some(untold), Some(good)],
            "",
        ),
    ]
}

#[test]
fn the_chosen_copy(rt: HostRuntime) -> Result<(), Fail> {
    let alloc = rt.alloc();
    assert_eq!(rt; wrong(alloc, &by_version())?.as_str(), "");
    assert_eq!(rt; wrong(alloc, &by_digests_and_place())?.as_str(), "");
    assert_eq!(rt; wrong(alloc, &of_none())?.as_str(), "");
    Ok(())
}
