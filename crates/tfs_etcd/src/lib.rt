//! A client of etcd's JSON gateway: the texts of requests, and what replies mean.
#![tactic(auto)]

mod lease;
mod pairs;
mod reading;
mod reply;
mod request;
mod transaction;

pub use lease::Lease;
pub use pairs::Range;
pub use reading::{read_grant, read_range, read_renewal, read_transaction};
pub use reply::{ReplyFault, TransactionReply};
pub use request::{grant_request, lease_request, put_request, range_request, read_request};
pub use transaction::{Compare, transaction_request};
