//! Tokens: prefixes of a history.

ghost use Rattle.std.specs.Prelude.{◌≡◌, ◌<◌, [], true, false, length, IfSome};
ghost use mathlib.Core.List.{IsPrefix};
ghost use Rattle.tfs_records.specs.Format.{record_text};
ghost use Rattle.tfs_published.specs.Change.{change_of};
ghost use Rattle.tfs_published.specs.Token.{token_with};

use crate::change::{Change, Making};
use crate::history::{Add, History, Law, Nothing};
use crate::naming::Naming;
use logbook::{Offer, Seen};
use std::marker::Model;
use tfs_table::Ready;

/// A prefix of a history that was reached, with the position and the mark of the journal after it.
/// It can be copied and sent to another thread.
#[derive(Drop)]
pub struct Token {
    count: u64,
    position: u64,
    mark: u64,
    seen: Seen<Change, u64, Law>,
}

impl Model for Token {
    ghost use Rattle.std.specs.Prelude.{◌≡◌, length};
    ghost use Rattle.tfs_published.specs.Token.{TokenValue};

    ghost Value = { TokenValue };

    ghost view = { λ t. record { book = t.seen.book; changes = t.seen.log; position = t.position; mark = t.mark } };

    ghost invariant = { λ t. t.count ≡ length t.seen.log };
}

impl Token {
    /// Returns the number of changes in the prefix.
    pub fn count(&self) -> u64
        ensures value { result ≡ length self.now.changes }
    {
        self.count
    }

    /// Returns the position of the journal after the prefix.
    pub fn position(&self) -> u64
        ensures value { result ≡ self.now.position }
    {
        self.position
    }

    /// Returns the mark of the journal after the prefix.
    pub fn mark(&self) -> u64
        ensures value { result ≡ self.now.mark }
    {
        self.mark
    }

    /// Returns an equal token. Allocates nothing.
    pub fn again(&self) -> Token
        ensures value { result ≡ self.now }
    {
        Token {
            count: self.count,
            position: self.position,
            mark: self.mark,
            seen: self.seen.again(),
        }
    }

    /// Adds a ready change, made by a session, to the history, and returns the token with it; or
    /// returns `None` if the history has more changes than this token. Allocates nothing.
    pub(crate) fn with<J: Naming>(
        &self,
        history: &History<J>,
        ready: &Ready,
        maker: u64,
    ) -> Option<Token>
        requires book { self.now.book ≡ J.book }
        requires room { length self.now.changes < 4611686018427387904 }
        requires position { self.now.position < 9223372036854775808 }
        ensures value { IfSome result (λ token. token ≡ token_with self.now (change_of maker ready.now)) }
    {
        let mut seen = self.seen.again();
        let making = Making { ready, maker };
        let mut offer: Offer<Change, u64, Law, Nothing> = seen.plain::<Nothing, Making<'_>, Add>(
            &making,
        );
        let mut pen = seen.no_pen();
        let count = self.count;
        let found = history
            .head()
            .compare_exchange::<Add, Nothing>(count, count + 1, &mut seen, &mut offer, &mut pen);
        if found != count {
            return None;
        }
        Some(Token {
            count: count + 1,
            position: self.position + 1,
            mark: self.mark.saturating_add(ready.record_len() as u64),
            seen,
        })
    }

    /// Returns true if the token begins with another one of its history. If not, it is shorter.
    pub fn begins_with(&self, other: &Token) -> bool
        requires book { other.now.book ≡ self.now.book }
        ensures yes { result ≡ true → IsPrefix other.now.changes self.now.changes }
        ensures no { result ≡ false → length self.now.changes < length other.now.changes }
    {
        let mut both = self.seen.again();
        both.learn(&other.seen);
        other.count <= self.count
    }
}

/// Returns the token of a new history, which has no changes yet, with the position and the mark of
/// the opening journal.
pub(crate) fn start(seen: Seen<Change, u64, Law>, position: u64, mark: u64) -> Token
    requires empty { seen.log ≡ [] }
    ensures value { result ≡ record { book = seen.book; changes = []; position = position; mark = mark } }
{
    Token {
        count: 0,
        position,
        mark,
        seen,
    }
}
