//! The publisher: what the lock protects in addition to the table and the ledger's book.

ghost use Rattle.std.specs.Prelude.{◌≡◌, ◌≤◌, ◌<◌, ◌+◌, ◌∷◌, ◌++◌, [], true, false, drop, length, Some, None, IfSome, IfOk, OnOk, OnErr, option_map};
ghost use Rattle.std.specs.Arc.{arc_value};
ghost use Rattle.tfs_rules.specs.History.{state_of};
ghost use Rattle.tfs_records.specs.Journal.{acts_of, with_entry, position_of};
ghost use Rattle.tfs_table.specs.Lawful.{IsLawful};
ghost use Rattle.tfs_published.specs.Publisher.{Shows};
ghost use Rattle.tfs_published.specs.declared.operation.Operation.TheVariants.{Take};
ghost use Rattle.tfs_published.specs.Change.{state_told};
ghost use mathlib.Core.List.{IsPrefix};
ghost use Rattle.tfs_published.specs.PlaceView.{place_with};
ghost use Rattle.tfs_published.specs.Beginning.{BeginsWith};

use crate::history::{History, Opened};
use crate::naming::Naming;
use crate::operation::{Operation, Update};
use crate::point::Point;
use crate::published::Published;
use crate::reader::Reader;
use crate::replaced::Replaced;
use crate::rule::{CopyWriter, publish, with_room};
use crate::token::Token;
use left_right::writer::Writer;
use std::alloc::{AllocError, Global};
use std::marker::Model;
use std::mem::replace;
use std::sync::{Arc, Wait};
use tfs_index::Version;
use tfs_records::Sink;
use tfs_rules::Name;
use tfs_table::{Ready, Table};

/// The writer of the published copies, the word of the history, and its newest token. Between the
/// two halves of a change, `stage` and `publish`, there is a next token, whose last change is
/// queued. The versions that changes have replaced are kept as long as a copy has them.
pub struct Publisher<J: Naming> {
    writer: Option<CopyWriter<J>>,
    history: History<J>,
    newest: Token,
    next: Option<Token>,
    replaced: Replaced,
}

impl<J: Naming> Model for Publisher<J> {
    ghost use Rattle.std.specs.Prelude.{drop, option_map};
    ghost use Rattle.tfs_published.specs.Publisher.{PublisherView, IsPublisher};
    ghost use Rattle.tfs_published.specs.Change.{journal_after, makers_of};

    ghost Value = { PublisherView };

    ghost view = { λ b. record {
      journal = journal_after J.opening b.newest.changes;
      makers = makers_of b.newest.changes;
      next = option_map (λ t. journal_after J.opening t.changes) b.next;
      next_makers = option_map (λ t. makers_of t.changes) b.next;
      shown = option_map (λ w. w.desk.shown.value) b.writer;
    } };

    ghost invariant = { λ b. IsPublisher J.book J.opening b.newest b.next (option_map (λ w. w.desk.shown.value) b.writer)
        (option_map (λ w. drop w.behind w.log.items) b.writer) };
}

impl<J: Naming> Publisher<J> {
    /// Returns a publisher of the opening journal, with places for this number of readers. Fails if
    /// memory is refused.
    #[tactic(auto, using(crate::proofs::Points::no_changes))]
    pub fn new<K: Sink, R: Wait>(
        rt: &R,
        alloc: Global,
        table: &Table<K>,
        opened: Opened,
        number: usize,
    ) -> Result<Publisher<J>, AllocError>
        requires opening { table.now.journal ≡ J.opening }
        requires book { opened ≡ J.book }
        requires readers { (1 ≤ number) × (number ≤ 16) }
        ensures journal { IfOk result (λ publisher. (publisher.journal ≡ J.opening) × (publisher.makers ≡ [])) }
        ensures idle { IfOk result (λ publisher. publisher.next ≡ None) }
    {
        let (history, newest) = opened.into_named::<J>(table.position(), table.mark());
        let first = Published::of(alloc, table, &newest)?;
        let second = match Published::of(alloc, table, &newest) {
            Ok(second) => second,
            Err(error) => {
                drop(first);
                return Err(error);
            }
        };
        // The opening journal is lawful.
        table.is_kept();
        let writer: CopyWriter<J> = Writer::new(alloc, first, second, number)?;
        let writer = with_room(rt, writer)?;
        Ok(Publisher {
            writer: Some(writer),
            history,
            newest,
            next: None,
            replaced: Replaced::none(),
        })
    }

    /// Returns a reader that has seen what is published, or `None` if no place for a reader is
    /// left.
    pub fn reader(&self) -> Option<Reader<J>>
        ensures value { IfSome result (λ reader. reader ≡ record { journal = self.now.journal; makers = self.now.makers }) }
    {
        let Some(writer) = &self.writer else {
            return None;
        };
        let Ok(reader) = writer.factory().reader() else {
            return None;
        };
        Some(Reader::new(reader, self.point()))
    }

    /// States that the copy that readers enter represents the published journal, which is lawful
    /// and begins with the opening journal. A law of all publishers; the call computes nothing.
    pub fn shows(&self)
        ensures value { Shows self.now }
        ensures lawful { IsLawful self.now.journal }
        ensures begins { BeginsWith self.now.journal J.opening }
        ensures counted { length self.now.journal.entries ≡ length J.opening.entries + length self.now.makers }
    {
        // The prover knows the invariant if the publisher is read.
        let _position = self.newest.position();
    }

    /// Ends the writer. Waits for readers.
    pub fn close<R: Wait>(self, rt: &R) {
        let Publisher {
            writer,
            history: _history,
            newest: _newest,
            next: _next,
            replaced: _replaced,
        } = self;
        if let Some(writer) = writer {
            writer.take(rt);
        }
    }

    /// Returns true if the published journal begins with what a reader has seen. If not, its
    /// position is lower.
    pub fn covers(&self, reader: &Reader<J>) -> bool
        ensures yes { result ≡ true → BeginsWith self.now.journal reader.now.journal × IsPrefix reader.now.makers self.now.makers }
        ensures no { result ≡ false → position_of self.now.journal < position_of reader.now.journal }
    {
        self.point().covers(reader.point())
    }

    /// Advances a reader to the published journal.
    pub fn show(&self, reader: &mut Reader<J>)
        ensures value { reader.new ≡ record { journal = self.now.journal; makers = self.now.makers } }
    {
        reader.see(self.point());
    }

    /// Returns the point that is published.
    pub fn point(&self) -> Point<J>
        ensures value { result ≡ record { journal = self.now.journal; makers = self.now.makers } }
    {
        Point::new(self.newest.again())
    }

    /// Queues the update for a change, which the session with number `maker` makes. Readers don't
    /// see it before it is published.
    pub fn stage(&mut self, ready: &Ready, maker: u64) -> Result<(), AllocError>
        requires idle { self.old.next ≡ None }
        requires journal { ready.now.journal ≡ self.old.journal }
        requires entries { length self.old.journal.entries ≤ 65536 }
        requires base { self.old.journal.base.position ≤ 4611686018427387904 }
        ensures ok { OnOk result ((self.new.next ≡ Some (with_entry self.old.journal ready.now.entry))
            × (self.new.next_makers ≡ Some (self.old.makers ++ maker ∷ []))) }
        ensures err { OnErr result (self.new.next ≡ None) }
        ensures kept { (self.new.journal ≡ self.old.journal) × (self.new.makers ≡ self.old.makers) × (self.new.shown ≡ self.old.shown) }
    {
        let Some(writer) = &mut self.writer else {
            return Err(AllocError);
        };
        let version = version_after(ready)?;
        let Some(token) = self.newest.with(&self.history, ready, maker) else {
            drop(version);
            return Err(AllocError);
        };
        let number = ready.number();
        if let Err(error) = queue(writer, number, ready.name(), version, &token) {
            drop(token);
            return Err(error);
        }
        self.next = Some(token);
        Ok(())
    }

    /// Publishes the staged change of the name with this number. Waits for readers that are still
    /// in the previous copy.
    pub fn publish<R: Wait>(&mut self, rt: &R, number: usize)
        requires number { number < 1024 }
        ensures journal { IfSome self.old.next (λ next. self.new.journal ≡ next) }
        ensures makers { IfSome self.old.next_makers (λ next. self.new.makers ≡ next) }
        ensures idle { self.new.next ≡ None }
    {
        let Some(token) = self.next.take() else {
            return;
        };
        let Some(writer) = self.writer.take() else {
            drop(token);
            return;
        };
        let replaced = writer.published().version(number);
        let none = replace(&mut self.writer, Some(publish(rt, writer)));
        if let Some(writer) = none {
            writer.take(rt);
        }
        self.newest = token;
        self.replaced.add(replaced);
    }

    /// Takes a version that was replaced and that no copy has any more, if there is one.
    pub fn take_replaced(&mut self) -> Option<Arc<Version>>
        ensures kept { self.new ≡ self.old }
    {
        self.replaced.take()
    }
}

/// Returns the version that a name has after a change. If the journal before the change is lawful,
/// so is the journal with it.
fn version_after(ready: &Ready) -> Result<Option<Arc<Version>>, AllocError>
    ensures value { IfOk result (λ version. option_map arc_value version
        ≡ state_of (acts_of ready.now.entry.name (with_entry ready.now.journal ready.now.entry))) }
    ensures lawful { OnOk result (IsLawful ready.now.journal → IsLawful (with_entry ready.now.journal ready.now.entry)) }
{
    match ready.version() {
        Some(version) => Ok(Some(version.clone()?)),
        None => Ok(None),
    }
}

/// Queues an update at a writer.
fn queue<J: Naming>(
    writer: &mut CopyWriter<J>,
    number: usize,
    name: &Name,
    version: Option<Arc<Version>>,
    token: &Token,
) -> Result<(), AllocError>
    requires number { number < 1024 }
    requires told { state_told token.now.changes ≡ option_map arc_value version }
    ensures ok { OnOk result (drop writer.new.behind writer.new.log.items ≡ drop writer.old.behind writer.old.log.items ++ Take (record {
      number = number;
      place = place_with name.now (option_map arc_value version);
      token = token.now;
    }) ∷ []) }
    ensures err { OnErr result (drop writer.new.behind writer.new.log.items ≡ drop writer.old.behind writer.old.log.items) }
    ensures shown { writer.new.desk.shown.value ≡ writer.old.desk.shown.value }
{
    let update = Update::new(number, name, version, token);
    match writer.append(Operation::Take(update)) {
        Ok(()) => Ok(()),
        Err(_) => Err(AllocError),
    }
}
