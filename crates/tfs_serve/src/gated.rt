//! Desks with gates.

use crate::gate::Gate;
use tfs_calls::{Call, Reply};
use tfs_conversation::Desk;

/// A desk with a borrowed gate, which hears of each call before the desk is asked, and of the
/// desk's reply.
#[derive(Drop)]
pub struct Gated<'g, D: Desk, G: Gate> {
    pub desk: D,
    pub gate: &'g mut G,
}

impl<'g, D: Desk, G: Gate> Desk for Gated<'g, D, G> {
    ghost use Rattle.std.specs.Prelude.{◌≡◌, ◌∷◌, []};
    ghost use Rattle.tfs_serve.specs.Gate.{before, after, Hears};

    // The gate stays the borrowed one and hears of the call and the reply; the desk answers.
    ghost step = { λ old call reply new. (new.gate.ghost_name ≡ old.gate.ghost_name)
        × (D.step old.desk call reply new.desk × Hears (G.told old.gate.now) (G.told new.gate.now) (before call ∷ after reply ∷ [])) };

    fn answer(&mut self, call: Call) -> Reply {
        self.gate.before(&call);
        let reply = self.desk.answer(call);
        self.gate.after(&reply);
        reply
    }
}
