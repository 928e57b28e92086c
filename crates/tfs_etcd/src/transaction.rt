//! The body of a transaction that compares one key.

ghost use Rattle.std.specs.Prelude.{◌≡◌, ◌++◌, string_bytes, IfOk, OnOk};
ghost use Rattle.std.specs.List.{flat_map};
ghost use Rattle.tfs_etcd.specs.Requests.{compare_text, put_operation, later_operation, read_text, transaction_text};

use crate::request::{put_request, read_request};
use base64::engine::general_purpose::STANDARD;
use std::alloc::{AllocError, Global};
use tfs_store::Pair;

/// What a transaction compares.
#[derive(Clone, Copy, Debug)]
pub enum Compare<'a> {
    /// The key does not exist.
    Absent(&'a [u8]),
    /// The key has this value.
    Value(&'a [u8], &'a [u8]),
}

/// Returns the body of `/v3/kv/txn`: if the comparison holds, the puts; else the key `read` is read.
pub fn transaction_request(
    alloc: Global,
    compare: Compare<'_>,
    first: &Pair,
    more: &[Pair],
    read: &[u8],
) -> Result<String, AllocError>
    ensures text { IfOk result (λ text. string_bytes text
        ≡ transaction_text compare.entry first.now more.now read.now) }
{
    let compare = compare_request(alloc, compare)?;
    let puts = put_operations(alloc, first, more)?;
    let read = read_request(alloc, read)?;
    format!(in alloc;
        "{{\"compare\":[{compare}],\"success\":[{puts}],\"failure\":[{{\"request_range\":{read}}}]}}"
    )
}

/// Returns the text of a comparison.
fn compare_request(alloc: Global, compare: Compare<'_>) -> Result<String, AllocError>
    ensures text { IfOk result (λ text. string_bytes text ≡ compare_text compare.entry) }
{
    match compare {
        Compare::Absent(key) => {
            let key = STANDARD.encode(alloc, key)?;
            format!(in alloc;
                "{{\"key\":\"{key}\",\"target\":\"CREATE\",\"create_revision\":\"0\"}}"
            )
        }
        Compare::Value(key, value) => {
            let key = STANDARD.encode(alloc, key)?;
            let value = STANDARD.encode(alloc, value)?;
            format!(in alloc; "{{\"key\":\"{key}\",\"target\":\"VALUE\",\"value\":\"{value}\"}}")
        }
    }
}

/// Returns the texts of puts, with commas between them.
fn put_operations(alloc: Global, first: &Pair, more: &[Pair]) -> Result<String, AllocError>
    ensures text { IfOk result (λ text. string_bytes text
        ≡ put_operation first.now ++ flat_map later_operation more.now) }
{
    let mut text = put_operation(alloc, first)?;
    for put in more {
        push_operation(alloc, put, &mut text)?;
    }
    Ok(text)
}

/// Appends the text of a put after a comma.
fn push_operation(alloc: Global, put: &Pair, text: &mut String) -> Result<(), AllocError>
    ensures text { OnOk result (string_bytes text.new ≡ string_bytes text.old ++ later_operation put.now) }
{
    let operation = put_operation(alloc, put)?;
    let later = format!(in alloc; ",{operation}")?;
    text.push_str(later.as_str())
}

/// Returns the text of a put in a transaction.
fn put_operation(alloc: Global, put: &Pair) -> Result<String, AllocError>
    ensures text { IfOk result (λ text. string_bytes text ≡ put_operation put.now) }
{
    let put = put_request(alloc, put.key.as_bytes(), put.value.as_slice())?;
    format!(in alloc; "{{\"request_put\":{put}}}")
}
