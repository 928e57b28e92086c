//! Merging the ledger shares of all sessions.

ghost use Rattle.std.specs.Prelude.{◌≡◌, ◌≤◌, ◌*◌, [], length, sum_by, IfSome, IfNone};
ghost use Rattle.tfs_shared.specs.View.{counted_for};

use crate::session::Session;
use std::sync::ledger::Share;
use tfs_published::Naming;

/// Merges the shares of the sessions into one, whose amount is the sum of theirs. Returns `None` if
/// there are no sessions.
#[tactic(auto, using(crate::proofs::Shares::accepted_more, crate::proofs::Shares::counted_more))]
pub(crate) fn merge_shares<J: Naming>(sessions: Vec<Session<J>>) -> Option<Share<J>>
    requires some { 1 ≤ J.parts }
    ensures parts { IfSome result (λ share. share.parts ≡ length sessions.items) }
    ensures amount { IfSome result (λ share. share.amount ≡ sum_by counted_for sessions.items) }
    ensures few { IfSome result (λ share. sum_by (λ session. session.accepted) sessions.items ≤ 65536 * length sessions.items) }
    ensures apart { IfSome result (λ share. share.parts ≤ J.parts) }
    ensures none { IfNone result (sessions.items ≡ []) }
{
    let mut sessions = sessions;
    let last = sessions.pop()?;
    let mut all = last.into_share();
    for session in sessions {
        all.merge(session.into_share());
    }
    Some(all)
}
