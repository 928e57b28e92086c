//! Reading the rows of a store.

ghost use Rattle.std.specs.Prelude.{◌≡◌, ◌++◌, ◌∷◌, [], IfOk, IfSome, OnOk};
ghost use Rattle.std.specs.List.{AllZip};
ghost use Rattle.tfs_store.specs.Texts.{row_key};
ghost use Rattle.tfs_store.specs.Rows.{SpellsRow};

use crate::key::Key;
use crate::row::Row;
use std::alloc::{AllocError, Global};
use std::marker::Model;
use std::str;
use tfs_rules::Name;
use thiserror::Error;

/// A key of the store and its value.
#[derive(Debug, Drop)]
pub struct Pair {
    pub key: String,
    pub value: Vec<u8>,
}

impl Model for Pair {
    ghost use Rattle.std.specs.Prelude.{string_bytes};
    ghost use Rattle.tfs_store.specs.Rows.{PairValue};

    ghost Value = { PairValue };

    ghost view = { λ p. record { key = string_bytes p.key; value = p.value.items } };
}

/// Why a pair is not a row.
#[derive(Clone, Copy, Debug, PartialEq, Eq, Error)]
pub enum RowFault {
    /// The key is not the key of a row.
    #[error("a key of the store is not the key of a row")]
    Key,
    /// The value is not the value of a row.
    #[error("a value of the store is not the value of a row")]
    Value,
    #[error("out of memory")]
    NoMemory,
}

impl From<AllocError> for RowFault {
    fn from(_: AllocError) -> RowFault {
        RowFault::NoMemory
    }
}

/// Reads rows, in the order of their pairs: each row has exactly the key and the value of its pair.
pub fn read_rows(alloc: Global, prefix: &str, pairs: &[Pair]) -> Result<Vec<Row>, RowFault>
    ensures ok { IfOk result (λ rows. AllZip (SpellsRow prefix.now) pairs.now rows.items) }
{
    let mut rows = Vec::with_capacity(alloc, pairs.len())?;
    for pair in pairs {
        let row = read_row(alloc, prefix, pair)?;
        keep(&mut rows, row)?;
    }
    Ok(rows)
}

/// Reads a row.
fn read_row(alloc: Global, prefix: &str, pair: &Pair) -> Result<Row, RowFault>
    ensures ok { IfOk result (λ row. SpellsRow prefix.now pair.now row) }
{
    let Some(name) = row_name(alloc, prefix, pair.key.as_str())? else {
        return Err(RowFault::Key);
    };
    let Ok(text) = str::from_utf8(pair.value.as_slice()) else {
        return Err(RowFault::Value);
    };
    match Row::read(alloc, name, text)? {
        Some(row) => Ok(row),
        None => Err(RowFault::Value),
    }
}

/// Returns the name in the key of a row, or `None` for another key.
fn row_name(alloc: Global, prefix: &str, key: &str) -> Result<Option<Name>, AllocError>
    ensures name { IfOk result (λ found. IfSome found (λ name. key.now ≡ row_key prefix.now name)) }
{
    match Key::read(alloc, prefix, key)? {
        Some(Key::Row(name)) => Ok(Some(name)),
        _ => Ok(None),
    }
}

/// Appends a row.
fn keep(rows: &mut Vec<Row>, row: Row) -> Result<(), AllocError>
    ensures kept { OnOk result (rows.new.items ≡ rows.old.items ++ row ∷ []) }
{
    rows.push(row)?;
    Ok(())
}
