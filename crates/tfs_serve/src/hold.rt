//! Holds, which keep replies back until the journal is durable.

use crate::client::{Client, ClientFields};
use tfs_calls::Refusal;

/// A hold keeps a reply back until the bytes of the journal that it was answered over are durable.
pub trait Hold {
    ghost use Rattle.std.specs.Prelude.{◌≡◌, ℕ, true};

    // The first bytes of the journal, up to this number, are durable.
    ghost durable: { ℕ → Type 0 };

    // The client of the change at a position has the record of this number.
    ghost recorded: { ℕ → ℕ → Type 0 };

    // The records up to this number are made, as far as they can be.
    ghost made: { ℕ → Type 0 };

    /// Returns a number of first bytes of the journal that are durable, or `u64::MAX` if no reply
    /// is ever held back. It is a hint: reads prefer a state that these bytes have.
    fn synced(&self) -> u64;

    /// Waits until this many first bytes of the journal are durable. Returns false if they can't
    /// become durable any more: the reply is withheld.
    fn cover(&self, mark: u64) -> bool
        ensures durable { result ≡ true → durable mark };

    /// Returns the names of the fields with which requests name their clients.
    fn client_fields(&self) -> ClientFields<'_> {
        ClientFields::NONE
    }

    /// Counts a request that was refused before it became a call.
    fn note_refusal(&self, _refusal: &Refusal) {}

    /// Begins to record the client that made the change at a position, before the change is
    /// durable. Returns the number of the record, from 1.
    fn record(&self, position: u64, client: Client<'_>) -> u64
        ensures recorded { recorded position result };

    /// Returns once the records up to this number are made, before the change's reply. There are
    /// none up to 0.
    fn finish(&self, number: u64)
        ensures made { made number };
}

/// A hold that keeps no reply back: durability is not promised.
#[derive(Clone, Copy, Debug, Drop)]
pub struct NoHold;

impl Hold for NoHold {
    ghost use Rattle.std.specs.Prelude.{ℕ};

    ghost durable = { λ mark. Unit {0} };

    ghost recorded = { λ position number. Unit {0} };

    ghost made = { λ number. Unit {0} };

    fn synced(&self) -> u64 {
        u64::MAX
    }

    fn cover(&self, _mark: u64) -> bool {
        true
    }

    fn record(&self, _position: u64, _client: Client<'_>) -> u64 {
        0
    }

    fn finish(&self, _number: u64) {}
}
