//! What the bodies of replies of etcd's JSON gateway mean. The gateway leaves out members that are
//! false, 0 or empty, and writes 64-bit numbers as texts.

ghost use Rattle.std.specs.Prelude.{◌≡◌, map, option_map, Ok, IfOk};
ghost use Rattle.base64.specs.GeneralPurpose.{decode_of};
ghost use Rattle.base64.specs.Engines.{standard};
ghost use Rattle.tfs_json.specs.Tree.{tree_view};
ghost use Rattle.tfs_etcd.specs.Replies.{is_done, is_true, pairs_found, pairs_of, value_text, HasValue, IsTransaction};

use base64::DecodeAllocError;
use base64::engine::general_purpose::STANDARD;
use json::Value;
use std::alloc::{AllocError, Global};
use tfs_json::{Tree, list_at, member_at, text_at};
use thiserror::Error;

/// Why a reply is not understood. It is unknown whether the request was carried out.
#[derive(Clone, Copy, Debug, PartialEq, Eq, Error)]
pub enum ReplyFault {
    #[error("a reply of etcd is not JSON")]
    NotJson,
    #[error("a reply of etcd lacks a member")]
    Member,
    #[error("a value in a reply of etcd is not base64")]
    Value,
    #[error("out of memory")]
    NoMemory,
}

impl From<AllocError> for ReplyFault {
    fn from(_: AllocError) -> ReplyFault {
        ReplyFault::NoMemory
    }
}

/// The reply to a transaction with one read.
#[derive(Debug, Drop)]
pub enum TransactionReply {
    /// The comparison held: the puts were done.
    Done,
    /// The comparison did not hold: the value of the key that was read, if it exists.
    Failed(Option<Vec<u8>>),
}

/// Returns what the reply to a transaction means.
pub(crate) fn transaction_reply(
    alloc: Global,
    reply: &Tree<'_>,
) -> Result<TransactionReply, ReplyFault>
    ensures ok { IfOk result (λ found. IsTransaction (tree_view reply.now) found) }
{
    if is_done(reply) {
        return Ok(TransactionReply::Done);
    }
    let Some(pairs) = pairs_found(reply) else {
        return Err(ReplyFault::Member);
    };
    Ok(TransactionReply::Failed(first_value(alloc, pairs)?))
}

/// Returns true if the comparison of a transaction held.
fn is_done(reply: &Tree<'_>) -> bool
    ensures value { result ≡ is_done (tree_view reply.now) }
{
    is_true(member_at(reply, "succeeded"))
}

/// Returns true if a member is true.
pub(crate) fn is_true(member: Option<&Tree<'_>>) -> bool
    ensures value { result ≡ is_true (option_map (λ v. tree_view v.now) member.entry) }
{
    match member {
        Some(Value::Bool(truth)) => *truth,
        _ => false,
    }
}

/// Returns the pairs that the first operation of a transaction read.
fn pairs_found<'v, 't>(reply: &'v Tree<'t>) -> Option<&'v [Tree<'t>]>
    ensures value { option_map (λ pairs. map tree_view pairs.now) result ≡ pairs_found (tree_view reply.now) }
{
    match list_at(reply, "responses") {
        Some([response, ..]) => pairs_of(response),
        _ => None,
    }
}

/// Returns the pairs of a response to a read.
fn pairs_of<'v, 't>(response: &'v Tree<'t>) -> Option<&'v [Tree<'t>]>
    ensures value { option_map (λ pairs. map tree_view pairs.now) result ≡ pairs_of (tree_view response.now) }
{
    list_at(member_at(response, "response_range")?, "kvs")
}

/// Returns the value of the first pair, if there is one.
fn first_value(alloc: Global, pairs: &[Tree<'_>]) -> Result<Option<Vec<u8>>, ReplyFault>
    ensures ok { IfOk result (λ found. HasValue (map tree_view pairs.now) (option_map (λ bytes. bytes.items) found)) }
{
    match pairs {
        [pair, ..] => Ok(Some(value(alloc, pair)?)),
        [] => Ok(None),
    }
}

/// Returns the value of a pair.
pub(crate) fn value(alloc: Global, pair: &Tree<'_>) -> Result<Vec<u8>, ReplyFault>
    ensures ok { IfOk result (λ bytes. decode_of standard (value_text (tree_view pair.now)) ≡ Ok bytes.items) }
{
    decoded(alloc, value_text(pair))
}

/// Decodes base64.
pub(crate) fn decoded(alloc: Global, text: &str) -> Result<Vec<u8>, ReplyFault>
    ensures ok { IfOk result (λ bytes. decode_of standard text.now ≡ Ok bytes.items) }
{
    match STANDARD.decode(alloc, text.as_bytes()) {
        Ok(bytes) => Ok(bytes),
        Err(DecodeAllocError::OutOfMemory) => Err(ReplyFault::NoMemory),
        Err(_) => Err(ReplyFault::Value),
    }
}

/// Returns the text of the value of a pair. The gateway leaves an empty one out.
fn value_text<'t>(pair: &Tree<'t>) -> &'t str
    ensures value { result.now ≡ value_text (tree_view pair.now) }
{
    match text_at(pair, "value") {
        Some(text) => text,
        None => "",
    }
}
