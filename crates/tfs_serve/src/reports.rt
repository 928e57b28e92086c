//! How desks report to gates.

use crate::gate::{Gate, Given};
use crate::hold::Hold;
use tfs_calls::{Call, Reply};
use tfs_shared::Naming;

/// The part of a gate that a desk calls. A desk can't report a reply without the step of its session
/// and, if the reply may be written, the durability of the journal that the session has seen then.
pub(crate) trait Reports {
    ghost use Rattle.std.specs.Prelude.{◌≡◌, ◌∷◌, [], List, Option, true};
    ghost use Rattle.tfs_calls.specs.Reply.{reply_value};
    ghost use Rattle.tfs_serve.specs.Gate.{Event, before, after, Hears};
    ghost use Rattle.tfs_serve.specs.Hold.{IsDurable};
    ghost use Rattle.tfs_serve.specs.Session.{CaughtUpStep};

    // The events that the gate has heard, if they are known.
    ghost heard: { Self → Option (List Event) };

    /// Reports a call before it is answered.
    fn report_call(&mut self, call: &Call)
        ensures heard { Hears (heard self.old) (heard self.new) (before call.now ∷ []) };

    /// Reports a reply before it is written or withheld.
    fn report_reply<J: Naming, H: Hold>(&mut self, given: &Given<J>, reply: &Reply)
        requires step { CaughtUpStep J.opening given.now.before.value given.now.call.value (reply_value reply.now) given.now.after.value }
        requires held { given.now.is_opened ≡ true → IsDurable H.durable given.now.after.value.journal }
        ensures heard { Hears (heard self.old) (heard self.new) (after (reply_value reply.now) ∷ []) };
}

impl<G: Gate> Reports for G {
    ghost heard = { G.told };

    fn report_call(&mut self, call: &Call) {
        self.before(call);
    }

    fn report_reply<J: Naming, H: Hold>(&mut self, given: &Given<J>, reply: &Reply) {
        self.after_answer::<J, H>(given, reply);
    }
}
