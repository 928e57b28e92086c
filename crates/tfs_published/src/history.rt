//! The one history of a shared table.

ghost use Rattle.std.specs.Prelude.{◌≡◌, []};
ghost use Rattle.tfs_published.specs.History.{head_of};

use crate::change::{Change, Making};
use crate::naming::Naming;
use crate::token::{Token, start};
use logbook::{Gain, Plain, Play, Rule, Seen, Start, Word};
use std::marker::{Model, PhantomData};

/// The rule of the history: its word has the number of its changes.
pub struct Law;

impl Rule<Change, u64> for Law {
    ghost use Rattle.std.specs.Prelude.{[]};
    ghost use base.Fml.{ftrue};
    ghost use Rattle.tfs_published.specs.History.{IsCounted};

    ghost holds = { λ cells log. IsCounted cells log };

    ghost first = { [] };

    ghost hinted = { λ n log. Unit {0} };

    ghost shows = { λ log. [] };

    ghost keeps = { λ names log. ftrue };

    ghost moves = { λ ask before after answer. Unit {0} };
}

/// Callers gain nothing from a step.
pub struct Nothing;

impl Gain<Change, u64> for Nothing {
    ghost use base.Fml.{ftrue};

    ghost after = { λ names about answer. ftrue };
}

/// A step that adds a change.
pub struct Add;

impl Play<Change, u64> for Add {
    ghost use Rattle.tfs_published.specs.History.{Adds};

    ghost then = { Adds };
}

/// The change that a step adds: the ready one.
impl<'r> Plain<Making<'r>, Change, u64> for Add {
    ghost use Rattle.std.specs.Prelude.{None};
    ghost use Rattle.tfs_published.specs.Change.{change_of};

    ghost ask = { λ making. change_of making.maker making.ready.now };

    ghost state = { λ making. None };
}

/// The word that counts the changes of a table's history.
#[derive(Drop)]
pub struct History<J: Naming> {
    head: Word<Change, u64, Law>,
    of: PhantomData<J>,
}

impl<J: Naming> Model for History<J> {
    ghost use Rattle.std.specs.Prelude.{◌≡◌};
    ghost use Rattle.logbook.specs.Pages.{Book};
    ghost use Rattle.tfs_published.specs.History.{head_of};

    ghost Value = { Book };

    ghost view = { λ h. J.book };

    ghost invariant = { λ h. h.head ≡ head_of J.book };
}

impl<J: Naming> History<J> {
    /// Returns the word.
    pub(crate) fn head(&self) -> &Word<Change, u64, Law>
        ensures value { result.now ≡ head_of J.book }
    {
        &self.head
    }
}

/// A history without changes, which has no name yet. Making it allocates nothing and never fails.
/// Contracts see its book.
pub struct Opened {
    head: Word<Change, u64, Law>,
    seen: Seen<Change, u64, Law>,
}

impl Model for Opened {
    ghost use Rattle.std.specs.Prelude.{◌≡◌, []};
    ghost use Rattle.logbook.specs.Pages.{Book};
    ghost use Rattle.tfs_published.specs.History.{head_of};

    ghost Value = { Book };

    ghost view = { λ o. o.seen.book };

    ghost invariant = { λ o. (o.seen.log ≡ []) × (o.head ≡ head_of o.seen.book) };
}

impl Opened {
    /// Returns a new history.
    pub fn new() -> Opened {
        let (seen, mut first, _second) = Seen::open(Start::alone(), 0, 0);
        Opened {
            head: Word::tracked(0, &mut first),
            seen,
        }
    }

    /// Returns the history under a name, and the token without changes, with the position and the
    /// mark of the opening journal.
    pub(crate) fn into_named<J: Naming>(self, position: u64, mark: u64) -> (History<J>, Token)
        requires book { self ≡ J.book }
        ensures value { result.1 ≡ record { book = J.book; changes = []; position = position; mark = mark } }
    {
        let Opened { head, seen } = self;
        (
            History {
                head,
                of: PhantomData,
            },
            start(seen, position, mark),
        )
    }
}
