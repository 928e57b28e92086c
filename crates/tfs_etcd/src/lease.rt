//! Replies about leases.

ghost use Rattle.std.specs.Prelude.{◌≡◌, codes, Some, decimal, IfOk, IfSome, option_copied};
ghost use Rattle.tfs_json.specs.Tree.{tree_view};
ghost use Rattle.tfs_json.specs.Json.{text_at};
ghost use Rattle.tfs_etcd.specs.Replies.{IsSeconds, IsLease, IsKept};

use crate::reply::ReplyFault;
use tfs_json::{Tree, member_at, text_at};
use tfs_store::read_number;

/// A lease: its number, and for how many seconds it was granted or renewed. A lease that no longer
/// exists has 0 seconds.
#[derive(Clone, Copy, Debug, PartialEq, Eq)]
pub struct Lease {
    pub id: u64,
    pub seconds: u64,
}

/// Returns the lease that the reply to a renewal is about.
pub(crate) fn renewal_reply(reply: &Tree<'_>) -> Result<Lease, ReplyFault>
    ensures ok { IfOk result (λ lease. IsKept (tree_view reply.now) lease) }
{
    match member_at(reply, "result") {
        Some(renewal) => lease_reply(renewal),
        None => Err(ReplyFault::Member),
    }
}

/// Returns the lease that a reply is about.
pub(crate) fn lease_reply(reply: &Tree<'_>) -> Result<Lease, ReplyFault>
    ensures ok { IfOk result (λ lease. IsLease (tree_view reply.now) lease) }
{
    match (number_at(reply, "ID"), seconds_in(reply)) {
        (Some(id), Some(seconds)) => Ok(Lease { id, seconds }),
        _ => Err(ReplyFault::Member),
    }
}

/// Returns the seconds in a reply: 0 if there are none.
fn seconds_in(reply: &Tree<'_>) -> Option<u64>
    ensures value { IfSome result (λ seconds. IsSeconds (text_at (codes "TTL") (tree_view reply.now)) seconds) }
{
    match text_at(reply, "TTL") {
        Some(text) => read_number(text),
        None => Some(0),
    }
}

/// Returns the number at a member, which is a text.
fn number_at(reply: &Tree<'_>, name: &str) -> Option<u64>
    ensures value { IfSome result (λ n. text_at name.now (tree_view reply.now) ≡ Some (decimal n)) }
{
    match text_at(reply, name) {
        Some(text) => read_number(text),
        None => None,
    }
}
