//! Which copy the snapshots are checked on, and positions that some OSDs alone hold.
use crate::cases::{Case, all_have, alone, each_has, in_order, of_one, wrong};
use crate::sketch::{InfoAttr, Sketch, SnapsetAttr, clone_at, head, recorded};
use pgs_name::HEAD;
use std::test::Fail;

// A head whose snapset lists the clone 4.
fn head_with_clone() -> Sketch {
    head().with_clones(4, [Some((4, 7)), None, None])
}

fn of_one_position() -> [Case; 3] {
    let good = head();
    let newer = good.with_info(recorded(HEAD).at_version(4, 3));
    let no_info = good.with_info_attr(InfoAttr::Absent);
    let no_snapset = good.with_snapset_attr(SnapsetAttr::Absent);
    [
        // The primary's snapset lists a clone that isn't there, and the chosen one's lists none.
        of_one(
            "the chosen copy",
            [Some(head_with_clone()), Some(newer), Some(newer)],
            "head, 5 chosen: object_info_inconsistency snapset_inconsistency; 4:; 5:; 6:\n",
        ),
        of_one(
            "a copy that isn't chosen",
            [Some(no_snapset), Some(good), Some(good)],
            "head, 5 chosen:; 4: snapset_missing; 5:; 6:\n",
        ),
        of_one(
            "the first that could be looked at",
            [Some(good.unstated()), Some(no_info), Some(no_snapset)],
            "head, none chosen:; 4: stat_error; 5: info_missing; 6: snapset_missing\nsnaps of head: info_missing; missing:; extra:\n",
        ),
    ]
}

// A position is there without a view too.
fn without_views() -> [Case; 2] {
    let clone = clone_at(4);
    let good = head_with_clone();
    [
        all_have(
            "a head",
            [Some(clone), Some(good.unstated()), None],
            "head, none chosen:; 4: stat_error; 5: stat_error; 6: stat_error\n",
        ),
        all_have(
            "a clone",
            [Some(clone.unstated()), Some(good), None],
            "clone 4, none chosen:; 4: stat_error; 5: stat_error; 6: stat_error\n",
        ),
    ]
}

fn of_some() -> [Case; 4] {
    let clone = Some(clone_at(4));
    let good = Some(head_with_clone());
    let both = in_order([clone, good, None]);
    let garbled = Some(clone_at(4).with_snapset_attr(SnapsetAttr::Garbled));
    [
        each_has(
            "a head at the last replica",
            [alone(clone), alone(clone), both],
            "head, 6 chosen:; 4: missing; 5: missing; 6:\n",
        ),
        each_has(
            "a clone at the last replica",
            [alone(good), alone(good), both],
            "clone 4, 6 chosen:; 4: missing; 5: missing; 6:\n",
        ),
        each_has(
            "two positions, the clone first",
            [both, alone(None), both],
            "clone 4, 4 chosen:; 4:; 5: missing; 6:\nhead, 4 chosen:; 4:; 5: missing; 6:\n",
        ),
        // The snapset of a clone isn't looked at.
        each_has(
            "a garbled snapset of a clone",
            [both, in_order([garbled, good, None]), both],
            "",
        ),
    ]
}

#[test]
fn views(rt: HostRuntime) -> Result<(), Fail> {
    let alloc = rt.alloc();
    assert_eq!(rt; wrong(alloc, &of_one_position())?.as_str(), "");
    assert_eq!(rt; wrong(alloc, &without_views())?.as_str(), "");
    assert_eq!(rt; wrong(alloc, &of_some())?.as_str(), "");
    Ok(())
}
