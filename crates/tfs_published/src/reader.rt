//! What one session reads in the published copies.

ghost use Rattle.std.specs.Prelude.{◌≡◌, ◌⊎◌, ◌≤◌, ◌<◌, ◌+◌, length, IfSome, IfNone};
ghost use Rattle.tfs_rules.specs.History.{state_of};
ghost use Rattle.tfs_records.specs.Journal.{position_of, acts_of};
ghost use Rattle.tfs_table.specs.Lawful.{IsLawful};
ghost use Rattle.tfs_table.specs.Mark.{mark_of};
ghost use Rattle.tfs_published.specs.Beginning.{BeginsWith};
ghost use mathlib.Core.List.{IsPrefix};
ghost use Rattle.tfs_published.specs.Lookup.{IsLookup};

use crate::lookup::Lookup;
use crate::naming::Naming;
use crate::point::Point;
use crate::rule::{CopyReader, enter};
use std::marker::Model;
use tfs_rules::Name;

/// A reader of the published copies, and how far it has seen. Contracts see the journal that it has
/// seen, which is lawful, and the sessions that made its changes after the opening journal.
#[derive(Drop)]
pub struct Reader<J: Naming> {
    copies: Option<CopyReader<J>>,
    point: Point<J>,
}

impl<J: Naming> Model for Reader<J> {
    ghost use Rattle.std.specs.Prelude.{IsSome};
    ghost use Rattle.tfs_published.specs.Reader.{ReaderView};

    ghost Value = { ReaderView };

    ghost view = { λ v. v.point };

    ghost invariant = { λ v. IsSome v.copies };
}

impl<J: Naming> Reader<J> {
    /// Returns a reader that has seen the journal of a point.
    pub(crate) fn new(copies: CopyReader<J>, point: Point<J>) -> Reader<J>
        ensures value { result ≡ point }
    {
        Reader {
            copies: Some(copies),
            point,
        }
    }

    /// States that the journal that the reader has seen is lawful and begins with the opening
    /// journal. A law; the call computes nothing.
    pub fn is_kept(&self)
        ensures lawful { IsLawful self.now.journal }
        ensures begins { BeginsWith self.now.journal J.opening }
        ensures counted { length self.now.journal.entries ≡ length J.opening.entries + length self.now.makers }
    {
        self.point.is_kept();
    }

    /// Returns the position of the journal that the reader has seen.
    pub fn position(&self) -> u64
        ensures value { result ≡ position_of self.now.journal }
    {
        self.point.position()
    }

    /// Returns at least the mark of the journal that the reader has seen.
    pub fn mark(&self) -> u64
        ensures least { mark_of self.now.journal ≤ result }
    {
        self.point.mark()
    }

    /// Returns the point that the reader has seen.
    pub fn point(&self) -> &Point<J>
        ensures value { result.now ≡ self.now }
    {
        &self.point
    }

    /// Advances the reader to the journal of a point.
    pub(crate) fn see(&mut self, point: Point<J>)
        ensures value { self.new ≡ point }
    {
        self.point = point;
    }

    /// Advances the reader to the journal of a point if that begins with all that the reader has
    /// seen. Otherwise the reader has seen more, and nothing changes.
    pub fn catch_up(&mut self, point: &Point<J>)
        ensures later { BeginsWith self.new.journal self.old.journal × IsPrefix self.old.makers self.new.makers }
        ensures seen { (self.new ≡ point.now)
            ⊎ ((self.new ≡ self.old) × (position_of point.now.journal < position_of self.old.journal)) }
    {
        self.point.advance(point);
    }

    /// Looks up a name in a published copy that begins with all that the reader has seen, and
    /// advances the reader to the journal that the copy represents. Returns `None` and changes
    /// nothing if it can't enter such a copy. Never waits.
    pub fn look(&mut self, name: &Name) -> Option<Lookup>
        ensures found { IfSome result (λ lookup. IsLookup lookup (state_of (acts_of name.now self.new.journal))) }
        ensures later { BeginsWith self.new.journal self.old.journal × IsPrefix self.old.makers self.new.makers }
        ensures kept { IfNone result (self.new ≡ self.old) }
        ensures lawful { IsLawful self.new.journal }
    {
        self.look_within(name, u64::MAX)
    }

    /// Looks up a name in a published copy that begins with all that the reader has seen, if this
    /// number of bytes is synced. Advances the reader to the journal that the copy represents if
    /// its mark is synced. Otherwise advances it no further than to the last change of the name.
    /// Returns `None` and changes nothing if it can't enter such a copy. Never waits.
    #[tactic(auto, using(crate::proofs::Beginnings::begins_with_itself, crate::proofs::Beginnings::later_begins))]
    pub fn look_within(&mut self, name: &Name, synced: u64) -> Option<Lookup>
        ensures found { IfSome result (λ lookup. IsLookup lookup (state_of (acts_of name.now self.new.journal))) }
        ensures later { BeginsWith self.new.journal self.old.journal × IsPrefix self.old.makers self.new.makers }
        ensures kept { IfNone result (self.new ≡ self.old) }
        ensures lawful { IsLawful self.new.journal }
    {
        let copies = self.copies.take()?;
        let (copies, snapshot) = enter(copies, self.point.token(), name, synced);
        self.copies = Some(copies);
        let Some(snapshot) = snapshot else {
            return None;
        };
        self.point = Point::new(snapshot.token);
        Some(snapshot.lookup)
    }
}
