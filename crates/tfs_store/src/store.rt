//! Stores: what the journal asks of one, and what a store answers.

use crate::head::Head;
use crate::key::Key;
use crate::row::Row;
use crate::rows::Pair;
use std::alloc::Global;
use std::marker::Model;
use thiserror::Error;

/// What a store answers to a move of its head.
#[derive(Clone, Copy, Debug, PartialEq, Eq)]
pub enum Answer {
    /// The move was carried out.
    Moved,
    /// This try did not carry the move out: the store has this head.
    Found(Option<Head>),
    /// It is unknown whether the move was carried out.
    Unknown,
}

/// A move of the head: if the head is `from`, it becomes `to`, and these rows are put.
#[derive(Debug, Drop)]
pub struct Move<'a> {
    pub from: Option<Head>,
    pub to: Head,
    pub rows: &'a [Row],
}

impl<'a> Model for Move<'a> {
    ghost use Rattle.tfs_store.specs.Values.{MoveValue};

    ghost Value = { MoveValue };

    ghost view = { λ m. record { from = m.from; to = m.to; rows = m.rows.now } };
}

/// A store did not answer, or not as expected: it is unknown whether a request was carried out.
#[derive(Clone, Copy, Debug, PartialEq, Eq, Error)]
#[error("the store did not answer as expected")]
pub struct StoreFault;

/// A store that several servers share.
pub trait Store {
    ghost use Rattle.std.specs.Prelude.{◌≡◌, ◌++◌, ◌∷◌, [], List};
    ghost use Rattle.tfs_store.specs.Values.{MoveValue};
    ghost use Rattle.tfs_store.specs.declared.store.Answer.{Answer};

    // The moves that this server has asked for, each with the answer, the oldest first.
    ghost tries: { Self → List (MoveValue × Answer) };

    /// Puts a piece of a state. Its key has this server's token, so no other server puts it.
    fn put_piece(&mut self, key: &Key, bytes: &[u8]) -> Result<(), StoreFault>
        ensures kept { tries self.new ≡ tries self.old };

    /// Reads up to `limit` keys in order, from a text to before another one, as they are at one
    /// moment. A limit of 0 reads all.
    fn read(
        &mut self,
        alloc: Global,
        from: &str,
        until: &str,
        limit: u64,
    ) -> Result<Vec<Pair>, StoreFault>
        ensures kept { tries self.new ≡ tries self.old };

    /// Tries to move the head once: if the store's head is `step.from`, puts the rows and the head
    /// in one step.
    fn move_head(&mut self, step: &Move<'_>) -> Answer
        ensures tried { tries self.new ≡ tries self.old ++ (step.now, result) ∷ [] };
}

/// Waits between two tries of a move.
pub trait Patience {
    /// Waits a little. Returns false if the deadline has passed, so that there is no other try.
    fn lasts(&mut self) -> bool;
}
