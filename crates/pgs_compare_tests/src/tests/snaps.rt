//! Each error among the snapshots of an object by itself, where all OSDs have the same copies. Where the view isn't good, no copy
//! is: then each has the error too, and none is chosen.
use crate::cases::{Case, all_have, all_have_one, wrong};
use crate::sketch::{InfoAttr, Sketch, SnapsetAttr, clone_at, head, recorded};
use pgs_name::HEAD;
use std::test::Fail;

// A head whose snapset lists the clone 4 with a size.
fn head_with_clone(size: u64) -> Sketch {
    head().with_clones(4, [Some((4, size)), None, None])
}

fn of_heads() -> [Case; 5] {
    let good = head();
    [
        all_have_one(
            "snapset_missing",
            good.with_snapset_attr(SnapsetAttr::Absent),
            "head, none chosen:; 4: snapset_missing; 5: snapset_missing; 6: snapset_missing\nsnaps of head: snapset_missing; missing:; extra:\n",
        ),
        // Beside a snapset that doesn't read no clone is extra.
        all_have(
            "snapset_corrupted",
            [
                Some(clone_at(4)),
                Some(good.with_snapset_attr(SnapsetAttr::Garbled)),
                None,
            ],
            "head, none chosen:; 4: snapset_corrupted; 5: snapset_corrupted; 6: snapset_corrupted\nsnaps of head: snapset_corrupted; missing:; extra:\n",
        ),
        all_have_one(
            "info_missing",
            good.with_info_attr(InfoAttr::Absent),
            "head, none chosen:; 4: info_missing; 5: info_missing; 6: info_missing\nsnaps of head: info_missing; missing:; extra:\n",
        ),
        all_have_one(
            "info_corrupted",
            good.with_info_attr(InfoAttr::Garbled),
            "head, none chosen:; 4: info_corrupted; 5: info_corrupted; 6: info_corrupted\nsnaps of head: info_corrupted; missing:; extra:\n",
        ),
        all_have_one(
            "size_mismatch",
            good.with_info(recorded(HEAD).of_size(8)),
            "head, none chosen:; 4: obj_size_info_mismatch; 5: obj_size_info_mismatch; 6: obj_size_info_mismatch\nsnaps of head: size_mismatch; missing:; extra:\n",
        ),
    ]
}

fn of_clones() -> [Case; 6] {
    let clone = clone_at(4);
    let good = head_with_clone(7);
    [
        all_have("nothing", [Some(clone), Some(good), None], ""),
        all_have(
            "headless",
            [Some(clone), Some(clone_at(6)), None],
            "snaps of clone 4: headless; missing:; extra:\nsnaps of clone 6: headless; missing:; extra:\n",
        ),
        all_have(
            "info_missing",
            [
                Some(clone.with_info_attr(InfoAttr::Absent)),
                Some(good),
                None,
            ],
            "clone 4, none chosen:; 4: info_missing; 5: info_missing; 6: info_missing\nsnaps of clone 4: info_missing; missing:; extra:\n",
        ),
        all_have(
            "info_corrupted",
            [Some(clone.with_info(recorded(HEAD))), Some(good), None],
            "clone 4, none chosen:; 4: info_corrupted; 5: info_corrupted; 6: info_corrupted\nsnaps of clone 4: info_corrupted; missing:; extra:\n",
        ),
        all_have(
            "size_mismatch",
            [Some(clone), Some(head_with_clone(6)), None],
            "snaps of clone 4: size_mismatch; missing:; extra:\n",
        ),
        // The size of a clone is held against the head's snapset, and not against its own info.
        all_have(
            "no size_mismatch",
            [
                Some(clone.with_info(recorded(4).of_size(8))),
                Some(good),
                None,
            ],
            "clone 4, none chosen:; 4: obj_size_info_mismatch; 5: obj_size_info_mismatch; 6: obj_size_info_mismatch\n",
        ),
    ]
}

fn of_lists() -> [Case; 6] {
    let clone = clone_at(4);
    [
        // The snapset's seq is below its clone.
        all_have(
            "snapset_error",
            [
                Some(clone),
                Some(head().with_clones(3, [Some((4, 7)), None, None])),
                None,
            ],
            "snaps of head: snapset_error; missing:; extra:\n",
        ),
        all_have_one(
            "clone_missing",
            head_with_clone(7),
            "snaps of head: clone_missing; missing: 4; extra:\n",
        ),
        all_have(
            "clone_missing around one that is there",
            [
                Some(clone),
                Some(head().with_clones(6, [Some((2, 7)), Some((4, 7)), Some((6, 7))])),
                None,
            ],
            "snaps of head: clone_missing; missing: 2 6; extra:\n",
        ),
        all_have(
            "extra_clones",
            [Some(clone), Some(clone_at(6)), Some(head())],
            "snaps of head: extra_clones; missing:; extra: 4 6\n",
        ),
        all_have(
            "clone_missing and extra_clones",
            [
                Some(clone),
                Some(head().with_clones(6, [Some((6, 7)), None, None])),
                None,
            ],
            "snaps of head: clone_missing extra_clones; missing: 6; extra: 4\n",
        ),
        // Clones that don't go up: those that aren't there are told ascending, each once.
        all_have_one(
            "snapset_error and clone_missing",
            head().with_clones(6, [Some((6, 7)), Some((4, 7)), Some((6, 7))]),
            "snaps of head: snapset_error clone_missing; missing: 4 6; extra:\n",
        ),
    ]
}

#[test]
fn each_snap_error(rt: HostRuntime) -> Result<(), Fail> {
    let alloc = rt.alloc();
    assert_eq!(rt; wrong(alloc, &of_heads())?.as_str(), "");
    assert_eq!(rt; wrong(alloc, &of_clones())?.as_str(), "");
    assert_eq!(rt; wrong(alloc, &of_lists())?.as_str(), "");
    Ok(())
}
