//! The end of a run: the table and the outcomes of its workers.

ghost use Rattle.std.specs.Prelude.{◌≡◌, ◌+◌, ◌≤◌, All, Bool, true, [], is_some, length, map, sum_by, vec_capacity, IfOk, IfErr};
ghost use Rattle.tfs_records.specs.Journal.{position_of};
ghost use Rattle.tfs_table.specs.Lawful.{IsLawful};
ghost use Rattle.tfs_published.specs.Beginning.{BeginsWith};
ghost use Rattle.tfs_shared.specs.Signed.{AreSigned};
ghost use Rattle.tfs_shared.specs.Stops.{as_number};
ghost use Rattle.tfs_shared.specs.View.{AreNew};

use crate::gate::Gate;
use crate::member::Member;
use crate::run::Served;
use std::snapshot::Snapshot;
use std::sync::Wait;
use tfs_connections::{AcceptFault, Written};
use tfs_records::Sink;
use tfs_shared::{Naming, Session, Shared, Strangers, gather};
use tfs_table::Table;

/// Takes the table back from sessions that have made no calls.
pub(crate) fn take_back<J: Naming, K: Sink, R: Wait>(
    rt: &R,
    shared: Shared<J, K>,
    sessions: Vec<Session<J>>,
) -> Table<K>
    requires new { (stopped : Bool) × AreNew J.opening stopped J.sessions sessions.items }
    ensures journal { result.journal ≡ J.opening }
{
    match gather(rt, shared, sessions) {
        Ok(table) => table,
        Err(_) => unreachable!(),
    }
}

/// Takes the table back from sessions that have worked: its journal begins with all that they have
/// seen. If a session had seen more than the table's journal, returns the table alone, as an error.
pub(crate) fn gather_table<J: Naming, K: Sink, R: Wait>(
    rt: &R,
    shared: Shared<J, K>,
    sessions: Vec<Session<J>>,
) -> Result<Table<K>, Table<K>>
    ensures opening { IfOk result (λ table. BeginsWith table.journal J.opening) }
    ensures lawful { IfOk result (λ table. IsLawful table.journal) }
    ensures seen { IfOk result (λ table. All (λ session. BeginsWith table.journal session.journal) sessions.items) }
    ensures signed { IfOk result (λ table. AreSigned J.opening table.journal sessions.items) }
    ensures counted { IfOk result (λ table. length table.journal.entries
        ≡ length J.opening.entries + sum_by (λ session. session.accepted) sessions.items) }
    ensures faulted { IfOk result (λ table. sum_by (λ session. as_number session.faulted) sessions.items ≡ as_number table.stopped) }
    ensures stopped { IfOk result (λ table. All (λ session. session.stopped ≡ true → table.stopped ≡ true) sessions.items) }
    ensures kept { IfErr result (λ table. BeginsWith table.journal J.opening) }
{
    match gather(rt, shared, sessions) {
        Ok(table) => {
            // The journal is lawful.
            table.is_kept();
            Ok(table)
        }
        Err(strangers) => {
            let Strangers {
                shared,
                sessions: _sessions,
                why: _,
            } = strangers;
            Err(shared.close(rt))
        }
    }
}

/// Splits the members into their sessions and their outcomes.
pub(crate) fn split_members<J: Naming, G: Gate + Drop>(
    members: Vec<Member<J, G>>,
    sessions: Vec<Session<J>>,
    served: Vec<Served<G>>,
) -> (Vec<Session<J>>, Vec<Served<G>>)
    requires sessions { (sessions.items ≡ []) × (length members.items ≤ vec_capacity sessions) }
    requires served { (served.items ≡ []) × (length members.items ≤ vec_capacity served) }
    ensures sessions { result.0.items ≡ map (λ member. member.session) members.items }
    ensures served { result.1.items ≡ map (λ member. record {
      gate = member.gate;
      failed = is_some member.fault;
      fault = member.fault;
      seen = position_of member.session.journal;
      accepted = member.session.accepted;
      written = member.written;
    }) members.items }
{
    let mut sessions = sessions;
    let mut all = served;
    for member in members {
        let Member {
            gate,
            session,
            fault,
            written,
        } = member;
        let served = served_by(&session, gate, fault, written);
        sessions.push(session).unwrap();
        all.push(served).unwrap();
    }
    (sessions, all)
}

/// Returns the outcome of a member with this session.
fn served_by<J: Naming, G: Gate>(
    session: &Session<J>,
    gate: G,
    fault: Option<AcceptFault>,
    written: Snapshot<Written>,
) -> Served<G>
    ensures value { result ≡ record {
      gate = gate;
      failed = is_some fault;
      fault = fault;
      seen = position_of session.now.journal;
      accepted = session.now.accepted;
      written = written;
    } }
{
    Served {
        gate,
        failed: fault.is_some(),
        fault,
        seen: session.seen(),
        accepted: session.accepted(),
        written,
    }
}
