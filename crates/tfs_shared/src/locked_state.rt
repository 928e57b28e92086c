//! The data under the lock.

ghost use Rattle.std.specs.Prelude.{◌≡◌, ◌≢◌, ◌⊎◌, ◌+◌, ◌≤◌, ◌<◌, ℕ, List, [], true, false, All, Any, None, length, sum_by, IfOk, OnOk, OnErr, MatchResult};
ghost use Rattle.tfs_rules.specs.Act.{ActValue};
ghost use Rattle.std.specs.Arc.{arc_value};
ghost use Rattle.tfs_calls.specs.Refusal.{refusal_value, no_copy, out_of_memory, journal_stopped};
ghost use Rattle.tfs_calls.specs.Transition.{AnswersAct, answer_of, open_model};
ghost use Rattle.tfs_rules.specs.History.{state_of};
ghost use Rattle.tfs_records.specs.Journal.{acts_of, position_of};
ghost use Rattle.tfs_calls.specs.declared.call.Call.TheVariants.{Read};
ghost use Rattle.tfs_calls.specs.Reply.{state, refused};
ghost use Rattle.tfs_table.specs.Table.{IsTable, model_of, change_reply};
ghost use Rattle.tfs_published.specs.Publisher.{Shows};
ghost use Rattle.tfs_shared.specs.LockedState.{IsLockedState, HasCause};
ghost use mathlib.Core.List.{IsPrefix};
ghost use Rattle.tfs_shared.specs.Signed.{AreSigned, IsSigned, makers_told};
ghost use Rattle.tfs_shared.specs.Locked.{AnswersChange, AnswersRead, HasNoCopy, IsAhead};
ghost use Rattle.tfs_shared.specs.Stops.{as_number, weight};
ghost use Rattle.tfs_shared.specs.View.{CountsNothing, CountsStop};
ghost use Rattle.tfs_published.specs.Beginning.{BeginsWith};

use crate::locked::change;
use crate::merge::merge_shares;
use crate::session::Session;
use std::marker::Model;
use std::sync::ledger::Book;
use std::sync::{Arc, Wait};
use tfs_calls::Refusal;
use tfs_index::Version;
use tfs_published::{Naming, Publisher};
use tfs_records::Sink;
use tfs_rules::Name;
use tfs_state::Doc;
use tfs_table::{Prepared, Table};

/// The table, its publisher, and the book of accepted changes, of the fault that stopped the table,
/// and of the sessions that have reported it.
pub struct LockedState<J: Naming, K: Sink> {
    table: Table<K>,
    publisher: Publisher<J>,
    book: Book<J>,
}

impl<J: Naming, K: Sink> Model for LockedState<J, K> {
    ghost use Rattle.tfs_shared.specs.LockedState.{LockedStateView, IsLockedState};

    ghost Value = { LockedStateView };

    ghost view = { λ h. record { table = h.table; publisher = h.publisher; total = h.book.total } };

    ghost invariant = { λ h. IsLockedState J.opening (record { table = h.table; publisher = h.publisher; total = h.book.total }) };
}

impl<J: Naming, K: Sink> LockedState<J, K> {
    /// Creates the state of a table that has not changed since it was opened, with its publisher.
    pub(crate) fn new(table: Table<K>, publisher: Publisher<J>, book: Book<J>) -> LockedState<J, K>
        requires opening { table.journal ≡ J.opening }
        requires published { publisher.journal ≡ J.opening }
        requires idle { publisher.next ≡ None }
        requires unused { book.total ≡ weight 0 table.stopped false }
        ensures table { result.table ≡ table }
    {
        LockedState {
            table,
            publisher,
            book,
        }
    }

    /// States what holds whenever the lock is free: the table's invariant, with a lawful journal;
    /// readers' snapshots represent that journal; beyond the opening entries it has as many entries
    /// as accepted changes, each with its maker; and the table is stopped if and only if a session
    /// has its fault. The call computes nothing: it is a law.
    pub fn is_kept(&self)
        ensures table { IsTable self.now.table }
        ensures shown { Shows self.now.publisher }
        ensures locked_state { IsLockedState J.opening self.now }
        ensures begins { BeginsWith self.now.table.journal J.opening }
        ensures made { length self.now.table.journal.entries ≡ length J.opening.entries + length self.now.publisher.makers }
    {
        // The laws of the two parts.
        self.table.is_kept();
        self.publisher.shows();
    }

    /// Makes a change by a session. Afterwards the session has seen the table's journal, whatever
    /// the reply; only `NoCopy` leaves the session unchanged.
    pub(crate) fn submit<R: Wait>(
        &mut self,
        rt: &R,
        session: &mut Session<J>,
        prepared: Prepared,
    ) -> Result<u64, Refusal>
        ensures answered { HasNoCopy J.opening session.old session.new (change_reply result)
            ⊎ AnswersChange prepared.name prepared.act session.old session.new (change_reply result) }
        ensures over { ((change_reply result ≡ refused no_copy) × (position_of self.old.table.journal < position_of session.old.journal)
            × (session.new ≡ session.old))
            ⊎ (AnswersAct (model_of self.old.table) prepared.name prepared.act (change_reply result) (model_of self.new.table)
            × HasCause self.old.table self.new.table prepared (change_reply result) × (session.new.journal ≡ self.new.table.journal)) }
        ensures numbered { IfOk result (λ number. (number ≡ position_of session.new.journal) × (position_of session.old.journal < number)) }
        ensures signed { IsSigned J.opening session.old session.new (makers_told session.old.number (change_reply result)) }
        ensures accepted { OnOk result (session.new.accepted ≡ session.old.accepted + 1) }
        ensures refused { OnErr result (session.new.accepted ≡ session.old.accepted) }
        ensures stops { CountsStop session.old session.new (change_reply result) }
    {
        // The published journal is the table's, which is lawful, and each change beyond the opening
        // journal has a maker.
        self.is_kept();
        session.is_kept();
        if !session.is_covered(&self.publisher) {
            drop(prepared);
            return Err(Refusal::NoCopy);
        }
        let maker = session.number();
        let was_stopped = self.table.stopped();
        let answer = change(rt, &mut self.table, &mut self.publisher, prepared, maker);
        session.see(&self.publisher);
        session.is_kept();
        if answer.is_ok() {
            // There are at most 65,536 entries, so the count doesn't overflow.
            self.table.is_kept();
            session.count(&mut self.book);
        } else if was_stopped {
            session.stop(&mut self.book);
        } else if self.table.stopped() {
            session.fault(&mut self.book);
        }
        answer
    }

    /// Takes a version that was replaced and that nothing under the lock refers to any more.
    pub(crate) fn take_replaced(&mut self) -> Option<Arc<Version>>
        ensures kept { self.new ≡ self.old }
    {
        self.publisher.take_replaced()
    }

    /// Returns the refusal for a change that couldn't be prepared for lack of memory:
    /// `JournalStopped` if the table is stopped, otherwise `OutOfMemory`. The session then has seen
    /// the published journal. Returns `NoCopy` if the session had seen more, and then nothing
    /// changes.
    #[tactic(auto, using(crate::proofs::Signing::signs_none, crate::proofs::Signing::signs_nothing))]
    pub(crate) fn lack_memory(&mut self, session: &mut Session<J>) -> Refusal
        ensures answered { (name : List ℕ) (act : ActValue) → HasNoCopy J.opening session.old session.new (refused (refusal_value result))
            ⊎ AnswersChange name act session.old session.new (refused (refusal_value result)) }
        ensures over { ((refusal_value result ≡ no_copy) × (position_of self.old.table.journal < position_of session.old.journal))
            ⊎ (((refusal_value result ≡ journal_stopped) × (self.old.table.stopped ≡ true))
            ⊎ ((refusal_value result ≡ out_of_memory) × (self.old.table.stopped ≡ false))) }
        ensures signed { IsSigned J.opening session.old session.new [] }
        ensures accepted { session.new.accepted ≡ session.old.accepted }
        ensures stops { CountsStop session.old session.new (refused (refusal_value result)) }
    {
        // The published journal is the table's, which is lawful, and each change beyond the opening
        // journal has a maker.
        self.is_kept();
        session.is_kept();
        if !session.is_covered(&self.publisher) {
            return Refusal::NoCopy;
        }
        session.see(&self.publisher);
        session.is_kept();
        if self.table.stopped() {
            session.stop(&mut self.book);
            return Refusal::JournalStopped;
        }
        Refusal::OutOfMemory
    }

    /// Returns the state of a name to a session, which then has seen the published journal. Returns
    /// `NoCopy` if the session had seen more, and then nothing changes.
    #[tactic(auto, using(crate::proofs::Signing::signs_none, crate::proofs::Signing::signs_nothing))]
    pub(crate) fn state(&self, session: &mut Session<J>, name: &Name) -> Result<Arc<Doc>, Refusal>
        ensures answered { MatchResult result
            (λ doc. AnswersRead name.now session.old session.new (state (arc_value doc)))
            (λ refusal. HasNoCopy J.opening session.old session.new (refused (refusal_value refusal))
            ⊎ AnswersRead name.now session.old session.new (refused (refusal_value refusal))) }
        ensures over { MatchResult result
            (λ doc. state (arc_value doc) ≡ answer_of (open_model self.now.table.journal) (Read name.now))
            (λ refusal. ((refusal_value refusal ≡ no_copy) × (position_of self.now.table.journal < position_of session.old.journal))
            ⊎ ((refused (refusal_value refusal) ≡ answer_of (open_model self.now.table.journal) (Read name.now))
            ⊎ ((refusal_value refusal ≡ out_of_memory) × (state_of (acts_of name.now self.now.table.journal) ≢ None)))) }
        ensures signed { IsSigned J.opening session.old session.new [] }
        ensures counted { CountsNothing session.old session.new }
    {
        // The published journal is the table's, which is lawful, and each change beyond the opening
        // journal has a maker.
        self.is_kept();
        session.is_kept();
        if !session.is_covered(&self.publisher) {
            return Err(Refusal::NoCopy);
        }
        session.see(&self.publisher);
        session.is_kept();
        self.table.state(name)
    }

    /// Returns the table and closes the publisher, which waits for readers.
    pub(crate) fn close<R: Wait>(self, rt: &R) -> Table<K>
        ensures table { result ≡ self.table }
    {
        let LockedState {
            table,
            publisher,
            book: _book,
        } = self;
        publisher.close(rt);
        table
    }

    /// Returns true if the table's journal begins with what each session has seen. Otherwise some
    /// session has seen more.
    pub(crate) fn covers_all(&self, sessions: &[Session<J>]) -> bool
        ensures yes { result ≡ true → All (λ session. BeginsWith self.now.table.journal session.journal) sessions.now }
        ensures signed { result ≡ true → AreSigned J.opening self.now.table.journal sessions.now }
        ensures no { result ≡ false → Any (IsAhead J.opening) sessions.now }
    {
        // Each change of the table's journal beyond the opening one has a maker.
        self.is_kept();
        for session in sessions {
            if !self.covers(session) {
                return false;
            }
        }
        true
    }

    /// Returns true if the table's journal begins with what the session has seen. Otherwise the
    /// session has seen more.
    fn covers(&self, session: &Session<J>) -> bool
        ensures yes { result ≡ true → BeginsWith self.now.table.journal session.now.journal
            × IsPrefix session.now.makers self.now.publisher.makers }
        ensures no { result ≡ false → IsAhead J.opening session.now }
        ensures lower { result ≡ false → position_of self.now.table.journal < position_of session.now.journal }
    {
        // The published journal is the table's.
        self.is_kept();
        session.is_covered(&self.publisher)
    }

    /// Returns the table. Ends the readers of the sessions, which are all sessions of the table,
    /// and then closes the publisher. The table is stopped if and only if exactly one session has
    /// its fault, otherwise none has; it is stopped if any session has reported so.
    pub(crate) fn end<R: Wait>(self, rt: &R, sessions: Vec<Session<J>>) -> Table<K>
        requires some { (1 ≤ J.parts) × (J.parts ≤ 16) }
        requires all { J.parts ≤ length sessions.items }
        ensures table { result ≡ self.table }
        ensures whole { length sessions.items ≡ J.parts }
        ensures counted { length result.journal.entries
            ≡ length J.opening.entries + sum_by (λ session. session.accepted) sessions.items }
        ensures faulted { sum_by (λ session. as_number session.faulted) sessions.items ≡ as_number result.stopped }
        ensures stopped { All (λ session. session.stopped ≡ true → result.stopped ≡ true) sessions.items }
    {
        let LockedState {
            table,
            publisher,
            mut book,
        } = self;
        if let Some(mut all) = merge_shares(sessions) {
            book.audit(&mut all);
        }
        publisher.close(rt);
        table
    }
}
