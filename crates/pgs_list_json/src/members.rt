//! Members that stand only where there is a value.
ghost use Rattle.std.specs.Prelude.{◌≡◌, OnOk, option_map};
ghost use Rattle.serde_json.specs.Data.{number, unsigned};
ghost use Rattle.serde_json.specs.View.{members_view};
ghost use Rattle.pgs_list_json.specs.Members.{put_where};
ghost use Rattle.pgs_list_json.specs.Object.{digest_data};

use crate::object::digest_value;
use serde_json::{Map, Value, put};
use std::alloc::{AllocError, Global};

/// Puts a digest, where there is one.
pub fn put_digest(
    alloc: Global,
    map: &mut Map<String, Value>,
    key: &str,
    digest: Option<u32>,
) -> Result<(), AllocError>
    ensures { OnOk result (members_view map.new.entries ≡ put_where key.now (option_map digest_data digest) (members_view map.old.entries)) }
{
    match digest {
        Some(digest) => {
            let value = digest_value(alloc, digest)?;
            put(map, alloc, key, value)
        }
        None => Ok(()),
    }
}

/// Puts a number, where there is one.
pub fn put_number(
    alloc: Global,
    map: &mut Map<String, Value>,
    key: &str,
    count: Option<u64>,
) -> Result<(), AllocError>
    ensures { OnOk result (members_view map.new.entries ≡ put_where key.now (option_map (λ n. number (unsigned n)) count) (members_view map.old.entries)) }
{
    match count {
        Some(count) => put(map, alloc, key, Value::from(count)),
        None => Ok(()),
    }
}
