//! The pairs in a reply to a range.

ghost use Rattle.std.specs.Prelude.{◌≡◌, ◌++◌, ◌∷◌, [], map, Ok, string_bytes, IfOk, OnOk};
ghost use Rattle.std.specs.List.{AllZip};
ghost use Rattle.base64.specs.GeneralPurpose.{decode_of};
ghost use Rattle.base64.specs.Engines.{standard};
ghost use Rattle.tfs_json.specs.Tree.{tree_view};
ghost use Rattle.tfs_etcd.specs.Pairs.{key_text, IsPair, IsRange};

use crate::reply::{ReplyFault, decoded, is_true, value};
use std::alloc::{AllocError, Global};
use std::str;
use tfs_json::{Tree, list_at, member_at, text_at};
use tfs_store::Pair;

/// The reply to a range: the pairs, and whether there are more than the limit.
#[derive(Debug, Drop)]
pub struct Range {
    pub pairs: Vec<Pair>,
    pub more: bool,
}

/// Returns what the reply to a range means.
pub(crate) fn range_reply(alloc: Global, reply: &Tree<'_>) -> Result<Range, ReplyFault>
    ensures ok { IfOk result (λ range. IsRange (tree_view reply.now) range) }
{
    let Some(found) = list_at(reply, "kvs") else {
        return Err(ReplyFault::Member);
    };
    let pairs = pairs(alloc, found)?;
    let more = is_true(member_at(reply, "more"));
    Ok(Range { pairs, more })
}

/// Reads pairs, in order.
fn pairs(alloc: Global, found: &[Tree<'_>]) -> Result<Vec<Pair>, ReplyFault>
    ensures ok { IfOk result (λ pairs. AllZip IsPair (map tree_view found.now) pairs.items) }
{
    let mut pairs = Vec::with_capacity(alloc, found.len())?;
    for member in found {
        let pair = pair(alloc, member)?;
        keep(&mut pairs, pair)?;
    }
    Ok(pairs)
}

/// Reads a pair, whose key is a text.
fn pair(alloc: Global, member: &Tree<'_>) -> Result<Pair, ReplyFault>
    ensures ok { IfOk result (λ pair. IsPair (tree_view member.now) pair) }
{
    let key = key(alloc, member)?;
    let value = value(alloc, member)?;
    Ok(Pair { key, value })
}

/// Returns the key of a pair.
fn key(alloc: Global, member: &Tree<'_>) -> Result<String, ReplyFault>
    ensures ok { IfOk result (λ key. decode_of standard (key_text (tree_view member.now)) ≡ Ok (string_bytes key)) }
{
    let bytes = decoded(alloc, key_text(member))?;
    match str::from_utf8(bytes.as_slice()) {
        Ok(text) => Ok(String::from_str(alloc, text)?),
        Err(_) => Err(ReplyFault::Value),
    }
}

/// Returns the text of the key of a pair.
fn key_text<'t>(member: &Tree<'t>) -> &'t str
    ensures value { result.now ≡ key_text (tree_view member.now) }
{
    match text_at(member, "key") {
        Some(text) => text,
        None => "",
    }
}

/// Appends a pair.
fn keep(pairs: &mut Vec<Pair>, pair: Pair) -> Result<(), AllocError>
    ensures kept { OnOk result (pairs.new.items ≡ pairs.old.items ++ pair ∷ []) }
{
    pairs.push(pair)?;
    Ok(())
}
