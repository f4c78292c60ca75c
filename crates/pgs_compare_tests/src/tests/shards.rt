//! Each error of one copy by itself: the copy of the OSD 5 differs from good ones. Where another name comes with it by the
//! definitions, the case says why.
use crate::cases::{Case, beside_good, of_one, wrong};
use crate::sketch::{InfoAttr, SnapsetAttr, head, recorded};
use pgs_name::HEAD;
use std::test::Fail;

fn without_others() -> [Case; 6] {
    let good = head();
    [
        of_one("nothing", [Some(good), Some(good), Some(good)], ""),
        of_one(
            "missing",
            [Some(good), None, Some(good)],
            "head, 4 chosen:; 4:; 5: missing; 6:\n",
        ),
        beside_good(
            "stat_error",
            good.unstated(),
            "head, 4 chosen:; 4:; 5: stat_error; 6:\n",
        ),
        beside_good(
            "read_error",
            good.unread(),
            "head, 4 chosen:; 4:; 5: read_error; 6:\n",
        ),
        beside_good(
            "info_missing",
            good.with_info_attr(InfoAttr::Absent),
            "head, 4 chosen:; 4:; 5: info_missing; 6:\n",
        ),
        beside_good(
            "snapset_missing",
            good.with_snapset_attr(SnapsetAttr::Absent),
            "head, 4 chosen:; 4:; 5: snapset_missing; 6:\n",
        ),
    ]
}

// The chosen copy has a good attribute, so one that isn't good has other bytes.
fn with_other_bytes() -> [Case; 3] {
    let good = head();
    [
        beside_good(
            "info_corrupted",
            good.with_info_attr(InfoAttr::Garbled),
            "head, 4 chosen: object_info_inconsistency; 4:; 5: info_corrupted; 6:\n",
        ),
        beside_good(
            "snapset_corrupted",
            good.with_snapset_attr(SnapsetAttr::Garbled),
            "head, 4 chosen: snapset_inconsistency; 4:; 5: snapset_corrupted; 6:\n",
        ),
        beside_good(
            "obj_size_info_mismatch",
            good.with_info(recorded(HEAD).of_size(8)),
            "head, 4 chosen: object_info_inconsistency; 4:; 5: obj_size_info_mismatch; 6:\n",
        ),
    ]
}

fn beside_the_chosen_info() -> [Case; 3] {
    let good = head();
    let untold = good.without_digests();
    [
        // The chosen copy has the size that its info has, so this one has another size than it. Since this one's own info has
        // that size too, the infos differ.
        beside_good(
            "size_mismatch_info",
            good.with_size(8).with_info(recorded(HEAD).of_size(8)),
            "head, 4 chosen: object_info_inconsistency size_mismatch; 4:; 5: size_mismatch_info; 6:\n",
        ),
        // The chosen copy tells no digests, so only its info can differ.
        of_one(
            "data_digest_mismatch_info",
            [Some(untold), Some(good.with_other_data()), Some(good)],
            "head, 4 chosen:; 4:; 5: data_digest_mismatch_info; 6:\n",
        ),
        of_one(
            "omap_digest_mismatch_info",
            [Some(untold), Some(good.with_other_omap()), Some(good)],
            "head, 4 chosen:; 4:; 5: omap_digest_mismatch_info; 6:\n",
        ),
    ]
}

#[test]
fn each_shard_error(rt: HostRuntime) -> Result<(), Fail> {
    let alloc = rt.alloc();
    assert_eq!(rt; wrong(alloc, &without_others())?.as_str(), "");
    assert_eq!(rt; wrong(alloc, &with_other_bytes())?.as_str(), "");
    assert_eq!(rt; wrong(alloc, &beside_the_chosen_info())?.as_str(), "");
    Ok(())
}
