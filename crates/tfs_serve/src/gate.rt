//! Gates, which watch workers.

use crate::hold::Hold;
use std::snapshot::Snapshot;
use tfs_calls::{Call, Reply};
use tfs_shared::{Naming, Session};

/// A session's answer to a call, for proofs: the call, the session before and after it, and whether
/// the reply may be written.
#[derive(Drop)]
pub struct Given<J: Naming> {
    pub call: Snapshot<Call>,
    pub before: Snapshot<Session<J>>,
    pub after: Snapshot<Session<J>>,
    pub is_opened: bool,
}

/// A gate watches a worker: it is asked before each connection, and hears of each call and its
/// reply.
pub trait Gate {
    ghost use Rattle.std.specs.Prelude.{◌≡◌, ◌∷◌, [], List, Option, true};
    ghost use Rattle.tfs_calls.specs.Reply.{reply_value};
    ghost use Rattle.tfs_serve.specs.Gate.{Event, asked, before, after, Hears};
    ghost use Rattle.tfs_serve.specs.Hold.{IsDurable};
    ghost use Rattle.tfs_serve.specs.Session.{CaughtUpStep};

    // The events that it has heard, if they are known.
    ghost told: { Self → Option (List Event) };

    /// Returns true if the worker is to take the next connection.
    fn admit(&mut self) -> bool
        ensures heard { Hears (told self.old) (told self.new) (asked result ∷ []) };

    /// Hears of a call before it is answered.
    fn before(&mut self, call: &Call)
        ensures heard { Hears (told self.old) (told self.new) (before call.now ∷ []) };

    /// Hears of a reply after the call is answered and before the reply is written or withheld.
    fn after(&mut self, reply: &Reply)
        ensures heard { Hears (told self.old) (told self.new) (after (reply_value reply.now) ∷ []) };

    /// Hears of a reply as `after` does. A session of a table that was shared with the opening
    /// journal of `J` has given it; if it may be written, the journal that the session has seen
    /// then is durable by the hold `H`.
    fn after_answer<J: Naming, H: Hold>(&mut self, given: &Given<J>, reply: &Reply)
        requires step { CaughtUpStep J.opening given.now.before.value given.now.call.value (reply_value reply.now) given.now.after.value }
        requires held { given.now.is_opened ≡ true → IsDurable H.durable given.now.after.value.journal }
        ensures heard { Hears (told self.old) (told self.new) (after (reply_value reply.now) ∷ []) }
    {
        self.after(reply);
    }
}

/// A gate that admits every connection.
#[derive(Clone, Copy, Debug, Drop)]
pub struct Open;

impl Gate for Open {
    ghost use Rattle.std.specs.Prelude.{◌≡◌, None, true};

    ghost told = { λ gate. None };

    fn admit(&mut self) -> bool
        ensures open { result ≡ true }
    {
        true
    }

    fn before(&mut self, _call: &Call) {}

    fn after(&mut self, _reply: &Reply) {}
}
