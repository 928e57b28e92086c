//! Desks whose replies are owed: a reply may be withheld.

use crate::buffer::ReplyBuffer;
use std::net::IpAddr;
use tfs_calls::{Call, Refusal};
use tfs_framing::{Form, Request};
use tfs_http::{Outlet, ServeFault};

/// A service that answers calls one after the other, and writes a reply only once it may be
/// written.
pub trait OwedDesk {
    ghost use Rattle.std.specs.Prelude.{◌≡◌, true, false, IfErr, OnOk};
    ghost use Rattle.std.specs.Io.KnownBytes.{Appends};
    ghost use Rattle.tfs_calls.specs.declared.call.Call.{Call};
    ghost use Rattle.tfs_calls.specs.Draft.{CarriesFittingState};
    ghost use Rattle.tfs_conversation.specs.Conversation.{Said, said_text, is_open};
    ghost use Rattle.tfs_http.specs.Lent.{WritesPart, writing_failed};
    ghost use Rattle.tfs_http.specs.declared.fault.ServeFault.TheVariants.{Write};

    // The steps: from the first value, the call may get what is said and leave the second value.
    ghost step: { Self → Call → Said → Self → Type 0 };

    /// Returns true if `note_request` needs the heads of requests.
    fn wants_heads(&self) -> bool {
        false
    }

    /// Notes the address of the client whose requests follow, if it is known.
    fn note_client(&self, _address: Option<IpAddr>) {}

    /// Notes a request before its call is answered or refused.
    fn note_request(&self, _request: &Request) {}

    /// Notes that a request was refused before it became a call.
    fn note_refusal(&self, _refusal: &Refusal) {}

    /// Answers a call, whose body has at most 16 MiB, and writes the reply in this form. If the
    /// reply may not be written, writes nothing and returns `Write`.
    fn reply<W: Outlet>(
        &mut self,
        call: Call,
        form: Form,
        buffer: &mut ReplyBuffer,
        writer: &mut W,
    ) -> Result<(), ServeFault>
        requires fitting { CarriesFittingState call }
        ensures ok { OnOk result ((said : Said) × step self.old call said self.new × (is_open said ≡ true)
            × Appends (W.contents writer.old) (W.contents writer.new) (said_text said form) × (W.failed writer.new ≡ W.failed writer.old)) }
        ensures err { IfErr result (λ fault. (said : Said) × step self.old call said self.new
            × (is_open said ≡ true → WritesPart (W.contents writer.old) (W.contents writer.new) (said_text said form) fault
            × (W.failed writer.new ≡ writing_failed fault (W.failed writer.old)))
            × (is_open said ≡ false → (fault ≡ Write) × (W.contents writer.new ≡ W.contents writer.old)
            × (W.failed writer.new ≡ W.failed writer.old))) };
}
