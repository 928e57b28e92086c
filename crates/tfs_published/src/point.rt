//! Points of the history of a shared table.

ghost use Rattle.std.specs.Prelude.{◌≡◌, ◌⊎◌, ◌≤◌, ◌<◌, ◌+◌, length, true, false};
ghost use mathlib.Core.List.{IsPrefix};
ghost use Rattle.tfs_records.specs.Journal.{position_of};
ghost use Rattle.tfs_table.specs.Lawful.{IsLawful};
ghost use Rattle.tfs_table.specs.Mark.{mark_of};
ghost use Rattle.tfs_published.specs.Beginning.{BeginsWith};
ghost use Rattle.tfs_published.specs.Change.{journal_after, makers_of};
ghost use Rattle.tfs_published.specs.Point.{IsPoint};

use crate::naming::Naming;
use crate::token::Token;
use std::marker::{Model, PhantomData};

/// A point of the history of a shared table: a token. It can be copied and sent to another thread.
/// Contracts see the journal after its changes, which is lawful, and the sessions that made them.
#[derive(Drop)]
pub struct Point<J: Naming> {
    token: Token,
    of: PhantomData<J>,
}

impl<J: Naming> Model for Point<J> {
    ghost use Rattle.tfs_published.specs.Change.{journal_after, makers_of};
    ghost use Rattle.tfs_published.specs.Point.{IsPoint};
    ghost use Rattle.tfs_published.specs.Reader.{ReaderView};

    ghost Value = { ReaderView };

    ghost view = { λ p. record { journal = journal_after J.opening p.token.changes; makers = makers_of p.token.changes } };

    ghost invariant = { λ p. IsPoint J.book J.opening p.token };
}

impl<J: Naming> Point<J> {
    /// Returns the point of a token.
    pub(crate) fn new(token: Token) -> Point<J>
        requires point { IsPoint J.book J.opening token }
        ensures value { result ≡ record { journal = journal_after J.opening token.changes; makers = makers_of token.changes } }
    {
        Point {
            token,
            of: PhantomData,
        }
    }

    /// States that its journal is lawful and begins with the opening journal. A law; the call
    /// computes nothing.
    pub fn is_kept(&self)
        ensures lawful { IsLawful self.now.journal }
        ensures begins { BeginsWith self.now.journal J.opening }
        ensures counted { length self.now.journal.entries ≡ length J.opening.entries + length self.now.makers }
    {
        // The prover knows the invariant if the point is read.
        let _position = self.token.position();
    }

    /// Returns an equal point. Allocates nothing.
    pub fn again(&self) -> Point<J>
        ensures value { result ≡ self.now }
    {
        Point::new(self.token.again())
    }

    /// Returns the position of its journal.
    pub fn position(&self) -> u64
        ensures value { result ≡ position_of self.now.journal }
    {
        self.token.position()
    }

    /// Returns at least the mark of its journal.
    pub fn mark(&self) -> u64
        ensures least { mark_of self.now.journal ≤ result }
    {
        self.token.mark()
    }

    /// Returns its token.
    pub(crate) fn token(&self) -> &Token
        ensures point { IsPoint J.book J.opening result.now }
        ensures value { self.now ≡ record { journal = journal_after J.opening result.now.changes; makers = makers_of result.now.changes } }
    {
        &self.token
    }

    /// Returns true if its journal begins with that of another point. If not, its position is
    /// lower.
    pub fn covers(&self, other: &Point<J>) -> bool
        ensures yes { result ≡ true → BeginsWith self.now.journal other.now.journal × IsPrefix other.now.makers self.now.makers }
        ensures no { result ≡ false → position_of self.now.journal < position_of other.now.journal }
    {
        self.token.begins_with(&other.token)
    }

    /// Advances the point to another one if the journal of that begins with its own. Otherwise the
    /// other position is lower, and nothing changes.
    #[tactic(auto, using(crate::proofs::Beginnings::begins_with_itself, crate::proofs::Prefixes::prefix_itself))]
    pub fn advance(&mut self, other: &Point<J>)
        ensures later { BeginsWith self.new.journal self.old.journal × IsPrefix self.old.makers self.new.makers }
        ensures seen { (self.new ≡ other.now)
            ⊎ ((self.new ≡ self.old) × (position_of other.now.journal < position_of self.old.journal)) }
    {
        if other.covers(self) {
            *self = other.again();
        }
    }
}
