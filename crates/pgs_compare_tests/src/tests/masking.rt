//! Several names of one copy: which of them hide others.
use crate::cases::{Case, beside_good, wrong};
use crate::sketch::{InfoAttr, OTHER, SnapsetAttr, head, recorded};
use pgs_name::HEAD;
use std::test::Fail;

fn of_data() -> [Case; 5] {
    let good = head();
    [
        beside_good(
            "size and digest",
            good.with_size(8).with_other_data(),
            "head, 4 chosen: data_digest_mismatch size_mismatch; 4:; 5: obj_size_info_mismatch size_mismatch_info data_digest_mismatch_info; 6:\n",
        ),
        beside_good(
            "both digests",
            good.with_digests(Some(OTHER), Some(OTHER)),
            "head, 4 chosen: data_digest_mismatch omap_digest_mismatch; 4:; 5: data_digest_mismatch_info omap_digest_mismatch_info; 6:\n",
        ),
        beside_good(
            "a failed read and size",
            good.unread().with_size(8),
            "head, 4 chosen: size_mismatch; 4:; 5: read_error obj_size_info_mismatch size_mismatch_info; 6:\n",
        ),
        beside_good(
            "no info and digest",
            good.with_info_attr(InfoAttr::Absent).with_other_data(),
            "head, 4 chosen: data_digest_mismatch; 4:; 5: info_missing data_digest_mismatch_info; 6:\n",
        ),
        // Nothing else is said of a copy that has the stat mark.
        beside_good(
            "a failed stat over all",
            good.with_size(8)
                .with_other_data()
                .with_color(Some("blue"))
                .with_info_attr(InfoAttr::Garbled)
                .marked_unstated(),
            "head, 4 chosen:; 4:; 5: stat_error; 6:\n",
        ),
    ]
}

fn of_attributes() -> [Case; 5] {
    let good = head();
    [
        // An info of another position reads.
        beside_good(
            "info_corrupted and obj_size_info_mismatch",
            good.with_info(recorded(4).of_size(8)),
            "head, 4 chosen: object_info_inconsistency; 4:; 5: info_corrupted obj_size_info_mismatch; 6:\n",
        ),
        beside_good(
            "info_corrupted of another position alone",
            good.with_info(recorded(4)),
            "head, 4 chosen: object_info_inconsistency; 4:; 5: info_corrupted; 6:\n",
        ),
        // One that doesn't read has no size.
        beside_good(
            "info_corrupted and size",
            good.with_info_attr(InfoAttr::Garbled).with_size(8),
            "head, 4 chosen: object_info_inconsistency size_mismatch; 4:; 5: info_corrupted size_mismatch_info; 6:\n",
        ),
        beside_good(
            "both attributes corrupted",
            good.with_info_attr(InfoAttr::Garbled)
                .with_snapset_attr(SnapsetAttr::Garbled),
            "head, 4 chosen: object_info_inconsistency snapset_inconsistency; 4:; 5: info_corrupted snapset_corrupted; 6:\n",
        ),
        // Of the three attributes that are gone only `_color` is a user's.
        beside_good(
            "no attributes",
            good.without_attrs(),
            "head, 4 chosen: attr_name_mismatch; 4:; 5: info_missing snapset_missing; 6:\n",
        ),
    ]
}

#[test]
fn several_names(rt: HostRuntime) -> Result<(), Fail> {
    let alloc = rt.alloc();
    assert_eq!(rt; wrong(alloc, &of_data())?.as_str(), "");
    assert_eq!(rt; wrong(alloc, &of_attributes())?.as_str(), "");
    Ok(())
}
