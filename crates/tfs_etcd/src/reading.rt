//! Reading the bodies of replies.

ghost use Rattle.std.specs.Prelude.{IfOk};
ghost use Rattle.tfs_etcd.specs.Pairs.{IsRange};
ghost use Rattle.tfs_etcd.specs.Replies.{IsTransaction, IsLease, IsKept, Means};

use crate::lease::{Lease, lease_reply, renewal_reply};
use crate::pairs::{Range, range_reply};
use crate::reply::{ReplyFault, TransactionReply, transaction_reply};
use json::{Error, Scratch, Value};
use std::alloc::Global;

/// Reads the body of the reply to a transaction with one read.
pub fn read_transaction(alloc: Global, body: &[u8]) -> Result<TransactionReply, ReplyFault>
    ensures ok { IfOk result (λ found. Means (λ reply. IsTransaction reply found) body.now) }
{
    let mut scratch = Scratch::new(alloc);
    match Value::from_slice(alloc, body, &mut scratch) {
        Ok(reply) => transaction_reply(alloc, &reply),
        Err(error) => Err(fault_of(error)),
    }
}

/// Reads the body of the reply to a range.
pub fn read_range(alloc: Global, body: &[u8]) -> Result<Range, ReplyFault>
    ensures ok { IfOk result (λ range. Means (λ reply. IsRange reply range) body.now) }
{
    let mut scratch = Scratch::new(alloc);
    match Value::from_slice(alloc, body, &mut scratch) {
        Ok(reply) => range_reply(alloc, &reply),
        Err(error) => Err(fault_of(error)),
    }
}

/// Reads the body of the reply to a grant of a lease.
pub fn read_grant(alloc: Global, body: &[u8]) -> Result<Lease, ReplyFault>
    ensures ok { IfOk result (λ lease. Means (λ reply. IsLease reply lease) body.now) }
{
    let mut scratch = Scratch::new(alloc);
    match Value::from_slice(alloc, body, &mut scratch) {
        Ok(reply) => lease_reply(&reply),
        Err(error) => Err(fault_of(error)),
    }
}

/// Reads the body of the reply to a renewal of a lease.
pub fn read_renewal(alloc: Global, body: &[u8]) -> Result<Lease, ReplyFault>
    ensures ok { IfOk result (λ lease. Means (λ reply. IsKept reply lease) body.now) }
{
    let mut scratch = Scratch::new(alloc);
    match Value::from_slice(alloc, body, &mut scratch) {
        Ok(reply) => renewal_reply(&reply),
        Err(error) => Err(fault_of(error)),
    }
}

/// Returns the fault of a body that was not read.
fn fault_of(error: Error) -> ReplyFault {
    match error {
        Error::Invalid => ReplyFault::NotJson,
        _ => ReplyFault::NoMemory,
    }
}
