//! The end of sharing: the table is taken back from its sessions.

ghost use Rattle.std.specs.Prelude.{◌≡◌, ◌+◌, ◌<◌, ◌≤◌, ◌↔◌, All, Any, true, length, sum_by, IfOk, IfErr};
ghost use Rattle.tfs_published.specs.Beginning.{BeginsWith};
ghost use Rattle.tfs_shared.specs.declared.gathering.Lack.TheVariants.{Missing, NoCopy};
ghost use Rattle.tfs_shared.specs.Locked.{IsAhead};
ghost use Rattle.tfs_shared.specs.Signed.{AreSigned};
ghost use Rattle.tfs_shared.specs.Stops.{as_number};

use crate::session::Session;
use crate::shared::Shared;
use std::sync::{Mutex, Wait};
use tfs_published::Naming;
use tfs_records::Sink;
use tfs_table::Table;

/// Why a table wasn't gathered.
#[derive(Clone, Copy, Debug, PartialEq, Eq)]
pub enum Lack {
    /// Fewer sessions were given than the table has.
    Missing,
    /// A session has seen more than the table's journal.
    NoCopy,
}

/// A shared table and sessions that weren't gathered, unchanged.
pub struct Strangers<J: Naming, K: Sink> {
    pub shared: Shared<J, K>,
    pub sessions: Vec<Session<J>>,
    pub why: Lack,
}

/// Takes back a shared table from all of its sessions. Waits for readers.
/// If sessions are missing or one of them has seen more than the table's journal, returns the
/// shared table and the sessions unchanged.
pub fn gather<J: Naming, K: Sink, R: Wait>(
    rt: &R,
    shared: Shared<J, K>,
    sessions: Vec<Session<J>>,
) -> Result<Table<K>, Strangers<J, K>>
    ensures whole { IfOk result (λ table. length sessions.items ≡ J.sessions) }
    ensures opening { IfOk result (λ table. BeginsWith table.journal J.opening) }
    ensures seen { IfOk result (λ table. All (λ session. BeginsWith table.journal session.journal) sessions.items) }
    ensures signed { IfOk result (λ table. AreSigned J.opening table.journal sessions.items) }
    ensures counted { IfOk result (λ table. length table.journal.entries
        ≡ length J.opening.entries + sum_by (λ session. session.accepted) sessions.items) }
    ensures faulted { IfOk result (λ table. sum_by (λ session. as_number session.faulted) sessions.items ≡ as_number table.stopped) }
    ensures stopped { IfOk result (λ table. All (λ session. session.stopped ≡ true → table.stopped ≡ true) sessions.items) }
    ensures missing { IfErr result (λ strangers. (strangers.why ≡ Missing) ↔ (length sessions.items < J.sessions)) }
    ensures ahead { IfErr result (λ strangers. strangers.why ≡ NoCopy → Any (IsAhead J.opening) sessions.items) }
    ensures back { IfErr result (λ strangers. (strangers.shared ≡ shared) × (strangers.sessions ≡ sessions)) }
{
    if sessions.len() < shared.number {
        let why = Lack::Missing;
        return Err(Strangers {
            shared,
            sessions,
            why,
        });
    }
    let Shared {
        alloc,
        locked_state,
        told,
        told_position,
        number,
        opened,
    } = shared;
    let locked_state = locked_state.into_inner();
    // The journal begins with the opening one.
    locked_state.is_kept();
    if locked_state.covers_all(sessions.as_slice()) {
        return Ok(locked_state.end(rt, sessions));
    }
    let shared = Shared {
        alloc,
        locked_state: Mutex::new(locked_state),
        told,
        told_position,
        number,
        opened,
    };
    let why = Lack::NoCopy;
    Err(Strangers {
        shared,
        sessions,
        why,
    })
}
