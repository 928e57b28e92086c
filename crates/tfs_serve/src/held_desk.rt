//! The desk of a worker: it answers over a session, and holds replies back until they are durable.

ghost use Rattle.std.specs.Prelude.{◌≡◌, ◌∷◌, [], true, false, IfErr, OnOk};
ghost use Rattle.std.specs.Io.KnownBytes.{Appends};
ghost use Rattle.tfs_calls.specs.Draft.{CarriesFittingState};
ghost use Rattle.tfs_calls.specs.Reply.{reply_value};
ghost use Rattle.tfs_http.specs.Lent.{TellsWriter, WritesPart};
ghost use Rattle.tfs_http.specs.ReplyText.{reply_text};
ghost use Rattle.tfs_http.specs.declared.fault.ServeFault.TheVariants.{Write};
ghost use Rattle.tfs_serve.specs.Gate.{before, after, Hears};
ghost use Rattle.tfs_serve.specs.Hold.{IsDurable, IsRecorded};
ghost use Rattle.tfs_serve.specs.Session.{CatchesUp, CaughtUpStep};

use crate::client::Noted;
use crate::gate::Given;
use crate::hold::Hold;
use crate::reports::Reports;
use crate::session_desk::{Service, reply_to};
use json::Scratch;
use std::net::IpAddr;
use std::snapshot::Snapshot;
use std::sync::Wait;
use tfs_calls::{Call, Refusal, Reply};
use tfs_conversation::{Outlet, OwedDesk, ReplyBuffer, ServeFault};
use tfs_framing::{Form, Request};
use tfs_records::Sink;
use tfs_shared::{Naming, Session};

/// What a worker answers with: what its session is served with, the hold of its replies, and what is
/// known of the present client.
#[derive(Drop)]
pub(crate) struct Post<'p, 's, J: Naming, K: Sink, R: Wait, H: Hold> {
    pub(crate) service: &'p Service<'s, J, K, R>,
    pub(crate) hold: &'p H,
    pub(crate) noted: Noted,
}

/// A desk that answers from a shared table through a borrowed session. Its borrowed gate hears of
/// each call before the session is asked, and of the reply. States are read with borrowed memory,
/// which is reused by all changes.
#[derive(Drop)]
pub(crate) struct HeldDesk<'p, 's, 'm, J: Naming, K: Sink, G: Reports, R: Wait, H: Hold> {
    pub(crate) post: &'p Post<'p, 's, J, K, R, H>,
    pub(crate) session: &'m mut Session<J>,
    pub(crate) gate: &'m mut G,
    pub(crate) scratch: &'m mut Scratch,
}

impl<'p, 's, 'm, J: Naming, K: Sink, G: Reports, R: Wait, H: Hold> HeldDesk<
    'p,
    's,
    'm,
    J,
    K,
    G,
    R,
    H,
> {
    /// Answers a call, and waits until the journal that the session has seen then is durable.
    /// Returns the reply, and whether it may be written.
    fn answer(&mut self, call: Call) -> (Reply, bool)
        requires fitting { CarriesFittingState call }
        ensures loans { (self.new.session.ghost_name ≡ self.old.session.ghost_name) × (self.new.gate.ghost_name ≡ self.old.gate.ghost_name) }
        ensures step { CaughtUpStep J.opening self.old.session.now call (reply_value result.0) self.new.session.now }
        ensures held { result.1 ≡ true → IsDurable H.durable self.new.session.now.journal }
        ensures recorded { result.1 ≡ true → IsRecorded H.recorded H.made (reply_value result.0) }
        ensures heard { Hears (G.heard self.old.gate.now) (G.heard self.new.gate.now) (before call ∷ after (reply_value result.0) ∷ []) }
    {
        let post = self.post;
        let synced = post.hold.synced();
        self.gate.report_call(&call);
        let asked = Snapshot::of(&call);
        let before = Snapshot::of(&*self.session);
        let reply = caught_up_reply(post.service, self.session, self.scratch, call, synced);
        let mark = self.session.mark();
        let number = post.noted.record(post.hold, &reply);
        let is_opened = covers(post, self.session, mark, synced, number);
        let given = Given {
            call: asked,
            before,
            after: Snapshot::of(&*self.session),
            is_opened,
        };
        self.gate.report_reply::<J, H>(&given, &reply);
        (reply, is_opened)
    }
}

impl<'p, 's, 'm, J: Naming, K: Sink, G: Reports, R: Wait, H: Hold> OwedDesk
    for HeldDesk<'p, 's, 'm, J, K, G, R, H> {
    ghost use Rattle.std.specs.Prelude.{◌≡◌, ◌∷◌, []};
    ghost use Rattle.tfs_serve.specs.Gate.{before, after, Hears};
    ghost use Rattle.tfs_serve.specs.Session.{HeldStep, reply_said};

    // The session and the gate stay the borrowed ones. The session answers, and the gate hears of
    // the call and the reply.
    ghost step = { λ old call said new. (new.session.ghost_name ≡ old.session.ghost_name) × (new.gate.ghost_name ≡ old.gate.ghost_name)
        × HeldStep H.durable J.opening old.session.now call said new.session.now
        × Hears (G.heard old.gate.now) (G.heard new.gate.now) (before call ∷ after (reply_said said) ∷ []) };

    fn wants_heads(&self) -> bool {
        self.post.hold.client_fields().is_any()
    }

    fn note_client(&self, address: Option<IpAddr>) {
        self.post.noted.note_address(address);
    }

    fn note_request(&self, request: &Request) {
        self.post
            .noted
            .note_request(request, self.post.hold.client_fields());
    }

    fn note_refusal(&self, refusal: &Refusal) {
        self.post.hold.note_refusal(refusal);
    }

    fn reply<W: Outlet>(
        &mut self,
        call: Call,
        form: Form,
        buffer: &mut ReplyBuffer,
        writer: &mut W,
    ) -> Result<(), ServeFault> {
        let (reply, is_durable) = self.answer(call);
        send_if(is_durable, buffer, writer, &reply, form)
    }
}

/// Sends a reply if it may be written. Otherwise writes nothing, and returns `Write`.
fn send_if<W: Outlet>(
    may: bool,
    buffer: &mut ReplyBuffer,
    writer: &mut W,
    reply: &Reply,
    form: Form,
) -> Result<(), ServeFault>
    ensures may { OnOk result (may ≡ true) }
    ensures ok { OnOk result (Appends (W.contents writer.old) (W.contents writer.new) (reply_text (reply_value reply.now) form)) }
    ensures err { IfErr result (λ fault. may ≡ true
        → WritesPart (W.contents writer.old) (W.contents writer.new) (reply_text (reply_value reply.now) form) fault) }
    ensures writer { may ≡ true → TellsWriter result (W.failed writer.old) (W.failed writer.new) }
    ensures withheld { may ≡ false → IfErr result (λ fault. fault ≡ Write) }
    ensures kept { may ≡ false → (W.contents writer.new ≡ W.contents writer.old) × (W.failed writer.new ≡ W.failed writer.old) }
{
    if !may {
        return Err(ServeFault::Write);
    }
    buffer.send(writer, reply, form)
}

/// Answers a call after catching up.
fn caught_up_reply<J: Naming, K: Sink, R: Wait>(
    service: &Service<'_, J, K, R>,
    session: &mut Session<J>,
    scratch: &mut Scratch,
    call: Call,
    synced: u64,
) -> Reply
    requires { CarriesFittingState call }
    ensures { CaughtUpStep J.opening session.old call (reply_value result) session.new }
{
    catch_up(service, session, &call, synced);
    reply_to(service, session, scratch, call, synced)
}

/// Catches up with what other replies have reported, if the call has to.
fn catch_up<J: Naming, K: Sink, R: Wait>(
    service: &Service<'_, J, K, R>,
    session: &mut Session<J>,
    call: &Call,
    synced: u64,
)
    ensures { CatchesUp J.opening session.old session.new }
{
    // Each change beyond the opening journal has a maker.
    session.is_kept();
    if !has_to_hear(call, synced) {
        return;
    }
    session.hear(service.rt, service.shared);
}

/// Returns true if a session has to catch up before it answers the call: if replies are held back,
/// a read or a query may be answered over less than the published journal.
fn has_to_hear(call: &Call, synced: u64) -> bool {
    match call {
        Call::Change(_, _) => false,
        Call::Read(_) | Call::Impact(_, _) => synced < u64::MAX,
    }
}

/// Waits until as many bytes are durable as the mark says and the records up to this number are
/// made, and lets the other sessions hear of the journal that the session has seen, since a reply is
/// about to report it. Returns false if the bytes can't become durable.
fn covers<J: Naming, K: Sink, R: Wait, H: Hold>(
    post: &Post<'_, '_, J, K, R, H>,
    session: &Session<J>,
    mark: u64,
    synced: u64,
    number: u64,
) -> bool
    ensures durable { result ≡ true → H.durable mark }
    ensures made { result ≡ true → H.made number }
{
    if !post.hold.cover(mark) {
        return false;
    }
    post.hold.finish(number);
    tell_others(post.service, session, synced);
    true
}

/// Lets the other sessions hear of the journal that the session has seen, if replies are held back.
fn tell_others<J: Naming, K: Sink, R: Wait>(
    service: &Service<'_, J, K, R>,
    session: &Session<J>,
    synced: u64,
) {
    if synced < u64::MAX {
        session.tell(service.rt, service.shared);
    }
}
