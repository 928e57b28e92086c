//! The sessions of a shared table.

ghost use Rattle.std.specs.Prelude.{◌≡◌, ◌⊎◌, ◌+◌, ◌<◌, ◌≤◌, [], length, true, false, IfSome, IfNone, IfOk, OnOk, OnErr, MatchResult};
ghost use Rattle.std.specs.Arc.{arc_value};
ghost use Rattle.tfs_rules.specs.History.{state_of};
ghost use Rattle.tfs_records.specs.Journal.{position_of, acts_of};
ghost use Rattle.tfs_calls.specs.Refusal.{refusal_value};
ghost use Rattle.tfs_calls.specs.Reply.{state, refused};
ghost use Rattle.tfs_table.specs.Lawful.{IsLawful};
ghost use Rattle.tfs_table.specs.Table.{change_reply};
ghost use Rattle.tfs_published.specs.Lookup.{IsLookup};
ghost use Rattle.tfs_table.specs.Mark.{mark_of};
ghost use mathlib.Core.List.{IsPrefix};
ghost use Rattle.tfs_shared.specs.Signed.{IsSigned, makers_told};
ghost use Rattle.tfs_shared.specs.Locked.{AnswersChange, AnswersRead, HasNoCopy};
ghost use Rattle.tfs_shared.specs.Stops.{weight};
ghost use Rattle.tfs_shared.specs.View.{CountsNothing, CountsStop, accepts_one, missed, reports};
ghost use Rattle.tfs_published.specs.Beginning.{BeginsWith};

use crate::shared::Shared;
use std::alloc::{AllocError, Global};
use std::marker::Model;
use std::sync::ledger::{Book, Share};
use std::sync::{Arc, MutexGuard, Wait};
use tfs_calls::{Draft, Refusal};
use tfs_published::{Lookup, Naming, Point, Publisher, Reader};
use tfs_records::Sink;
use tfs_rules::Name;
use tfs_state::Doc;
use tfs_table::{DeferredDrop, Prepared};

/// The ledger amount of a session's fault. It exceeds any sum of the accepted changes of all
/// sessions.
pub(crate) const FAULT: u64 = 2_097_152;

/// The ledger amount of a session that has reported a stopped table. It exceeds any sum of the
/// accepted changes and the faults of all sessions.
const STOP: u64 = 67_108_864;

/// A caller's handle to a shared table. Contracts see its number, the journal that it has seen, the
/// makers of that journal's changes, the number of its own accepted changes, whether it has the
/// fault that stopped the table, whether it has reported that the table is stopped, and the number
/// of its impact queries that got no snapshot, modulo 2 to the 64th.
#[derive(Drop)]
pub struct Session<J: Naming> {
    number: u64,
    reader: Reader<J>,
    share: Share<J>,
    accepted: u64,
    faulted: bool,
    stopped: bool,
    misses: u64,
}

impl<J: Naming> Model for Session<J> {
    ghost use Rattle.std.specs.Prelude.{◌≡◌, ◌≤◌};
    ghost use Rattle.tfs_shared.specs.Stops.{weight};
    ghost use Rattle.tfs_shared.specs.View.{SessionView};

    ghost Value = { SessionView };

    ghost view = { λ s. record {
      number = s.number;
      journal = s.reader.journal;
      makers = s.reader.makers;
      accepted = s.accepted;
      faulted = s.faulted;
      stopped = s.stopped;
      misses = s.misses;
    } };

    ghost invariant = { λ s. (s.share.parts ≡ 1) × (s.share.amount ≡ weight s.accepted s.faulted s.stopped) × (s.accepted ≤ 65536) };
}

impl<J: Naming> Session<J> {
    /// Creates the session with this number. It has seen what its reader has, and has made no
    /// changes. `faulted` says whether it has the fault that stopped the table.
    pub(crate) fn new(number: u64, reader: Reader<J>, share: Share<J>, faulted: bool) -> Session<J>
        requires parts { share.parts ≡ 1 }
        requires amount { share.amount ≡ weight 0 faulted false }
        ensures value { result ≡ record {
          number = number;
          journal = reader.journal;
          makers = reader.makers;
          accepted = 0;
          faulted = faulted;
          stopped = false;
          misses = 0;
        } }
    {
        Session {
            number,
            reader,
            share,
            accepted: 0,
            faulted,
            stopped: false,
            misses: 0,
        }
    }

    /// States that the journal it has seen is lawful and begins with the opening one. The call
    /// computes nothing: it is a law.
    pub fn is_kept(&self)
        ensures lawful { IsLawful self.now.journal }
        ensures begins { BeginsWith self.now.journal J.opening }
        ensures counted { length self.now.journal.entries ≡ length J.opening.entries + length self.now.makers }
    {
        self.reader.is_kept();
    }

    /// Returns its number among the sessions of its table, from 0.
    pub(crate) fn number(&self) -> u64
        ensures value { result ≡ self.now.number }
    {
        self.number
    }

    /// Returns the number of its accepted changes.
    pub fn accepted(&self) -> u64
        ensures value { result ≡ self.now.accepted }
    {
        self.accepted
    }

    /// Returns the position of the journal that it has seen.
    pub fn seen(&self) -> u64
        ensures value { result ≡ position_of self.now.journal }
    {
        self.reader.position()
    }

    /// Makes a change, or refuses it, over a journal that begins with all that the session had
    /// seen. Returns the position of the accepted change. Afterwards the session has seen the
    /// journal of the answer, including an accepted change.
    ///
    /// The change's record is made before the call waits for the lock. Large values are freed after
    /// the lock is released.
    ///
    /// # Errors
    ///
    /// Returns `NoCopy` if the session has seen more than the table's journal; nothing changes
    /// then.
    pub fn submit<K: Sink, R: Wait>(
        &mut self,
        rt: &R,
        shared: &Shared<J, K>,
        name: Name,
        draft: Draft,
    ) -> Result<u64, Refusal>
        ensures answered { HasNoCopy J.opening self.old self.new (change_reply result)
            ⊎ AnswersChange name draft self.old self.new (change_reply result) }
        ensures numbered { IfOk result (λ number. (number ≡ position_of self.new.journal) × (position_of self.old.journal < number)) }
        ensures signed { IsSigned J.opening self.old self.new (makers_told self.old.number (change_reply result)) }
        ensures accepted { OnOk result (self.new.accepted ≡ self.old.accepted + 1) }
        ensures refused { OnErr result (self.new.accepted ≡ self.old.accepted) }
        ensures stops { CountsStop self.old self.new (change_reply result) }
    {
        let Ok((prepared, deferred)) = with_deferred_drop(shared.alloc(), name, draft) else {
            let mut locked_state = shared.lock(rt);
            let refusal = locked_state.lack_memory(self);
            MutexGuard::unlock(locked_state);
            return Err(refusal);
        };
        let mut locked_state = shared.lock(rt);
        let answer = locked_state.submit(rt, self, prepared);
        let replaced = locked_state.take_replaced();
        MutexGuard::unlock(locked_state);
        drop(replaced);
        drop(deferred);
        answer
    }

    /// Returns the state of a name, over a journal that begins with all that the session had seen,
    /// and that it has seen afterwards. Waits for the lock.
    ///
    /// # Errors
    ///
    /// Returns `NoCopy` if the session has seen more than the table's journal; nothing changes
    /// then.
    pub fn state<K: Sink, R: Wait>(
        &mut self,
        rt: &R,
        shared: &Shared<J, K>,
        name: &Name,
    ) -> Result<Arc<Doc>, Refusal>
        ensures answered { MatchResult result
            (λ doc. AnswersRead name.now self.old self.new (state (arc_value doc)))
            (λ refusal. HasNoCopy J.opening self.old self.new (refused (refusal_value refusal))
            ⊎ AnswersRead name.now self.old self.new (refused (refusal_value refusal))) }
        ensures signed { IsSigned J.opening self.old self.new [] }
        ensures counted { CountsNothing self.old self.new }
    {
        let locked_state = shared.lock(rt);
        let answer = locked_state.state(self, name);
        MutexGuard::unlock(locked_state);
        answer
    }

    /// Returns true if the published journal begins with what the session has seen. Otherwise the
    /// published position is lower.
    pub(crate) fn is_covered(&self, publisher: &Publisher<J>) -> bool
        ensures yes { result ≡ true → BeginsWith publisher.now.journal self.now.journal × IsPrefix self.now.makers publisher.now.makers }
        ensures no { result ≡ false → position_of publisher.now.journal < position_of self.now.journal }
    {
        publisher.covers(&self.reader)
    }

    /// Advances the session to the published journal.
    pub(crate) fn see(&mut self, publisher: &Publisher<J>)
        ensures value { self.new ≡ record {
          number = self.old.number;
          journal = publisher.now.journal;
          makers = publisher.now.makers;
          accepted = self.old.accepted;
          faulted = self.old.faulted;
          stopped = self.old.stopped;
          misses = self.old.misses;
        } }
    {
        publisher.show(&mut self.reader);
    }

    /// Returns its share of the ledger, and releases its reader.
    pub(crate) fn into_share(self) -> Share<J>
        ensures parts { result.parts ≡ 1 }
        ensures amount { result.amount ≡ weight self.accepted self.faulted self.stopped }
        ensures few { self.accepted ≤ 65536 }
    {
        let Session {
            number: _,
            reader: _reader,
            share,
            accepted: _,
            faulted: _,
            stopped: _,
            misses: _,
        } = self;
        share
    }

    /// Counts an accepted change of this session, here and in the book.
    pub(crate) fn count(&mut self, book: &mut Book<J>)
        requires room { book.old.total < 65536 }
        ensures value { self.new ≡ accepts_one self.old }
        ensures total { book.new.total ≡ book.old.total + 1 }
    {
        book.audit(&mut self.share);
        book.add(&mut self.share, 1);
        self.accepted += 1;
    }

    /// Counts a fault of the sink at a change of this session, and that the session reports the
    /// stopped table, here and in the book. No session has counted a fault or a report before.
    pub(crate) fn fault(&mut self, book: &mut Book<J>)
        requires room { book.old.total < 2097152 }
        ensures none { (self.old.faulted ≡ false) × (self.old.stopped ≡ false) }
        ensures value { self.new ≡ reports self.old true }
        ensures total { book.new.total ≡ book.old.total + 69206016 }
    {
        book.audit(&mut self.share);
        book.add(&mut self.share, FAULT + STOP);
        self.faulted = true;
        self.stopped = true;
    }

    /// Counts that this session reports a stopped table, here and in the book. A further report
    /// changes nothing.
    pub(crate) fn stop(&mut self, book: &mut Book<J>)
        ensures value { self.new ≡ reports self.old self.old.faulted }
        ensures total { (book.new.total ≡ book.old.total) ⊎ (book.new.total ≡ book.old.total + 67108864) }
    {
        if self.stopped {
            return;
        }
        book.add(&mut self.share, STOP);
        self.stopped = true;
    }

    /// Counts an impact query that got no snapshot, modulo 2 to the 64th. The book doesn't count
    /// it.
    pub(crate) fn miss(&mut self)
        ensures value { self.new ≡ missed self.old }
    {
        self.misses = self.misses.wrapping_add(1);
    }

    /// Looks up a name in a snapshot that begins with all that the session has seen, if this number
    /// of bytes is synced. Afterwards the session has seen the journal of the snapshot if its mark
    /// is synced; otherwise no more than it had seen and the last change of the name. Never waits.
    /// Returns `None`, and nothing changes, if no such snapshot is handed out.
    #[tactic(auto, using(crate::proofs::Signing::signs_none, crate::proofs::Signing::signs_nothing))]
    pub(crate) fn look_within(&mut self, name: &Name, synced: u64) -> Option<Lookup>
        ensures found { IfSome result (λ lookup. IsLookup lookup (state_of (acts_of name.now self.new.journal))) }
        ensures later { BeginsWith self.new.journal self.old.journal }
        ensures signed { IsSigned J.opening self.old self.new [] }
        ensures lawful { IsLawful self.new.journal }
        ensures kept { IfNone result (self.new ≡ self.old) }
        ensures counted { CountsNothing self.old self.new }
    {
        let lookup = self.reader.look_within(name, synced);
        // Each change beyond the opening journal has a maker.
        self.reader.is_kept();
        lookup
    }

    /// Returns at least the mark of the journal that it has seen: the number of the journal's
    /// bytes.
    pub fn mark(&self) -> u64
        ensures least { mark_of self.now.journal ≤ result }
    {
        self.reader.mark()
    }

    /// Returns the point that it has seen.
    pub(crate) fn point(&self) -> &Point<J> {
        self.reader.point()
    }

    /// Advances the session to the journal of a point, unless it has seen more.
    #[tactic(auto, using(crate::proofs::Signing::signs_none))]
    pub(crate) fn catch_up(&mut self, point: &Point<J>)
        ensures later { BeginsWith self.new.journal self.old.journal }
        ensures signed { IsSigned J.opening self.old self.new [] }
        ensures lawful { IsLawful self.new.journal }
        ensures counted { CountsNothing self.old self.new }
        ensures misses { self.new.misses ≡ self.old.misses }
    {
        self.reader.catch_up(point);
        // Each change beyond the opening journal has a maker.
        self.reader.is_kept();
    }
}

/// Prepares a change for the table, with an additional reference to each of its parts that may be
/// large, so that these are freed later.
fn with_deferred_drop(
    alloc: Global,
    name: Name,
    draft: Draft,
) -> Result<(Prepared, DeferredDrop), AllocError>
    ensures value { IfOk result (λ made. made.0 ≡ record { name = name; act = draft }) }
{
    let prepared = Prepared::new(alloc, name, draft)?;
    let deferred = prepared.deferred_drop()?;
    Ok((prepared, deferred))
}
