//! The words of errors, in the order of their tables.
ghost use Rattle.std.specs.Prelude.{◌≡◌, ◌++◌, map, IfOk, OnOk};
ghost use Rattle.serde_json.specs.View.{view};
ghost use Rattle.pgs_find.specs.ObjectNames.{object_word, object_names_of};
ghost use Rattle.pgs_find.specs.ShardNames.{shard_word, shard_names_of};
ghost use Rattle.pgs_find.specs.SnapNames.{snap_word, snap_names_of};
ghost use Rattle.pgs_list_json.specs.Members.{words_data, word_where};
ghost use Rattle.pgs_list_json.specs.Obj.{some_has, union_of};

use pgs_find::{
    ObjectErrors, ShardError, ShardErrors, SnapErrors, object_rows, shard_rows, snap_rows,
};
use pgs_incons::ShardFinding;
use serde_json::{Value, push};
use std::alloc::{AllocError, Global};

// Appends a word, where its error holds.
fn push_where(alloc: Global, list: &mut Vec<Value>, so: bool, word: &str) -> Result<(), AllocError>
    ensures { OnOk result (map view list.new.items ≡ map view list.old.items ++ word_where so word.now) }
{
    if so {
        let value = Value::try_from_str(alloc, word)?;
        push(list, value)?;
    }
    Ok(())
}

/// The errors of copies among each other.
pub fn object_words(alloc: Global, errors: ObjectErrors) -> Result<Value, AllocError>
    ensures { IfOk result (λ value. view value ≡ words_data object_word (object_names_of errors)) }
{
    let rows = object_rows();
    let mut list = Vec::new(alloc);
    for row in &rows {
        push_where(alloc, &mut list, errors.has(row.name), row.name.word())?;
    }
    Ok(Value::Array(list))
}

/// The errors of one copy.
pub fn shard_words(alloc: Global, errors: ShardErrors) -> Result<Value, AllocError>
    ensures { IfOk result (λ value. view value ≡ words_data shard_word (shard_names_of errors)) }
{
    let rows = shard_rows();
    let mut list = Vec::new(alloc);
    for row in &rows {
        push_where(alloc, &mut list, errors.has(row.name), row.name.word())?;
    }
    Ok(Value::Array(list))
}

// Whether at least one copy has an error.
fn some_shard_has(shards: &[ShardFinding], name: ShardError) -> bool
    ensures { result ≡ some_has shards.now name }
{
    shards.iter().any(|shard| shard.errors.has(name))
}

/// The errors that any of these copies has.
pub fn union_words(alloc: Global, shards: &[ShardFinding]) -> Result<Value, AllocError>
    ensures { IfOk result (λ value. view value ≡ words_data shard_word (union_of shards.now)) }
{
    let rows = shard_rows();
    let mut list = Vec::new(alloc);
    for row in &rows {
        let so = some_shard_has(shards, row.name);
        push_where(alloc, &mut list, so, row.name.word())?;
    }
    Ok(Value::Array(list))
}

/// The errors of a head or a clone among the snapshots of its object.
pub fn snap_words(alloc: Global, errors: SnapErrors) -> Result<Value, AllocError>
    ensures { IfOk result (λ value. view value ≡ words_data snap_word (snap_names_of errors)) }
{
    let rows = snap_rows();
    let mut list = Vec::new(alloc);
    for row in &rows {
        push_where(alloc, &mut list, errors.has(row.name), row.name.word())?;
    }
    Ok(Value::Array(list))
}
