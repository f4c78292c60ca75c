//! Each error of the copies among each other by itself. Where a name of one copy comes with it by the definitions, the case says
//! why.
use crate::cases::{Case, beside_good, of_one, wrong};
use crate::sketch::{DATA, OMAP, head, recorded};
use pgs_name::HEAD;
use std::test::Fail;

fn of_attributes() -> [Case; 6] {
    let good = head();
    [
        beside_good(
            "object_info_inconsistency",
            good.with_info(recorded(HEAD).after(0)),
            "head, 4 chosen: object_info_inconsistency; 4:; 5:; 6:\n",
        ),
        beside_good(
            "snapset_inconsistency",
            good.with_clones(3, [None, None, None]),
            "head, 4 chosen: snapset_inconsistency; 4:; 5:; 6:\n",
        ),
        beside_good(
            "attr_value_mismatch",
            good.with_color(Some("blue")),
            "head, 4 chosen: attr_value_mismatch; 4:; 5:; 6:\n",
        ),
        beside_good(
            "attr_name_mismatch where one is lost",
            good.with_color(None),
            "head, 4 chosen: attr_name_mismatch; 4:; 5:; 6:\n",
        ),
        beside_good(
            "attr_name_mismatch where one is more",
            good.with_more(),
            "head, 4 chosen: attr_name_mismatch; 4:; 5:; 6:\n",
        ),
        // A name holds where it does of one of the others.
        of_one(
            "two others",
            [
                Some(good),
                Some(good.with_color(Some("blue"))),
                Some(good.with_more()),
            ],
            "head, 4 chosen: attr_value_mismatch attr_name_mismatch; 4:; 5:; 6:\n",
        ),
    ]
}

fn of_data() -> [Case; 3] {
    let good = head();
    let no_data = good.with_info(recorded(HEAD).with_digests(None, Some(OMAP)));
    let no_omap = good.with_info(recorded(HEAD).with_digests(Some(DATA), None));
    [
        // No info records the digest, so the copies alone differ.
        of_one(
            "data_digest_mismatch",
            [
                Some(no_data),
                Some(no_data.with_other_data()),
                Some(no_data),
            ],
            "head, 4 chosen: data_digest_mismatch; 4:; 5:; 6:\n",
        ),
        of_one(
            "omap_digest_mismatch",
            [
                Some(no_omap),
                Some(no_omap.with_other_omap()),
                Some(no_omap),
            ],
            "head, 4 chosen: omap_digest_mismatch; 4:; 5:; 6:\n",
        ),
        // The infos are the same, and have the chosen copy's size.
        beside_good(
            "size_mismatch",
            good.with_size(8),
            "head, 4 chosen: size_mismatch; 4:; 5: obj_size_info_mismatch size_mismatch_info; 6:\n",
        ),
    ]
}

#[test]
fn each_object_error(rt: HostRuntime) -> Result<(), Fail> {
    let alloc = rt.alloc();
    assert_eq!(rt; wrong(alloc, &of_attributes())?.as_str(), "");
    assert_eq!(rt; wrong(alloc, &of_data())?.as_str(), "");
    Ok(())
}
