//! The events that a gate has heard, for proofs.

ghost use Rattle.std.specs.Prelude.{◌≡◌, ◌++◌, ◌∷◌, List, []};
ghost use Rattle.std.specs.Borrow.{ftrue};
ghost use Rattle.std.specs.Coded.{coded_list};
ghost use Rattle.tfs_serve.specs.declared.heard.HeardEvent.{HeardEvent};
ghost use Rattle.tfs_serve.specs.contracts.heard.HeardEvent as heard_event;

use std::marker::Model;
use std::snapshot::Snapshot;
use tfs_calls::{Call, Reply};

/// The events that a gate has recorded, in order. Clauses read them by `events_of`. Takes no memory,
/// and its methods do nothing at run time.
#[derive(Drop)]
pub struct Heard {
    pub(crate) ghost events: { List HeardEvent } by { coded_list heard_event.the_row.coded },
}

impl Model for Heard {
    ghost also_owns = { λ _. ftrue };
}

/// An event of a gate: its answer when it was asked for a connection, a call or a reply.
#[derive(Drop)]
pub(crate) enum HeardEvent {
    Asked(bool),
    Before(Snapshot<Call>),
    After(Snapshot<Reply>),
}

impl Heard {
    ghost use Rattle.std.specs.Prelude.{◌≡◌, ◌++◌, ◌∷◌, []};
    ghost use Rattle.tfs_calls.specs.Reply.{reply_value};
    ghost use Rattle.tfs_serve.specs.Gate.{asked, before, after};
    ghost use Rattle.tfs_serve.specs.Heard.{events_of};

    /// Creates a list of no events.
    #[inline(always)]
    pub fn new() -> Heard
        ensures { events_of result ≡ [] }
    {
        Heard {}
    }

    /// Appends the gate's answer when it was asked for a connection.
    #[inline(always)]
    pub fn record_answer(&mut self, admits: bool)
        ensures { events_of self.new ≡ events_of self.old ++ asked admits ∷ [] }
    {
        *self = self.with(&HeardEvent::Asked(admits));
    }

    /// Appends a call, before it is answered.
    #[inline(always)]
    pub fn record_call(&mut self, call: &Call)
        ensures { events_of self.new ≡ events_of self.old ++ before call.now ∷ [] }
    {
        *self = self.with(&HeardEvent::Before(Snapshot::of(call)));
    }

    /// Appends the reply to a call.
    #[inline(always)]
    pub fn record_reply(&mut self, reply: &Reply)
        ensures { events_of self.new ≡ events_of self.old ++ after (reply_value reply.now) ∷ [] }
    {
        *self = self.with(&HeardEvent::After(Snapshot::of(reply)));
    }

    /// Returns the list with one more event.
    #[inline(always)]
    fn with(&self, _event: &HeardEvent) -> Heard
        ensures { result.events ≡ self.now.events ++ _event.now ∷ [] }
    {
        Heard {}
    }
}
