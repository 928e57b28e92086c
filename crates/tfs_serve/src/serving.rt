//! The work of one session: one connection after another.

ghost use Rattle.std.specs.Prelude.{◌≡◌, ℕ, List, OnOk, OnErr, IfErr, [], ◌∷◌, false};
ghost use Rattle.tfs_connections.specs.Accepting.{IsFinal, error_of};
ghost use Rattle.tfs_serve.specs.Gate.{IsAdmitted, IsClosed, asked};
ghost use Rattle.tfs_serve.specs.Session.{IsLater};
ghost use Rattle.tfs_serve.specs.Working.{GoesOnWith, HasConversed, HasReplied, HasWorked};

use crate::client::Noted;
use crate::gate::Gate;
use crate::held_desk::{HeldDesk, Post};
use crate::hold::{Hold, NoHold};
use crate::session_desk::Service;
use json::Scratch;
use std::net::{OpenListener, TcpStream};
use std::sync::Wait;
use std::time::Clock;
use tfs_connections::{AcceptFault, Connection, Reception, Setting};
use tfs_records::Sink;
use tfs_shared::{Naming, Session};

/// Takes one connection after another while the gate admits them, and holds a conversation over the
/// session on each. A fault of a connection ends only that connection. A connection that was gone
/// before it was taken is skipped, without asking the gate again. When conversations are to end,
/// the wait for a connection ends too, and the gate is asked again.
///
/// Afterwards the session has seen all that it had seen before. It has changed only by the calls
/// that it answered, and the gate has heard of all of these.
pub fn work<L: OpenListener<Stream = TcpStream>, J: Naming, K: Sink, G: Gate, R: Wait + Clock>(
    service: &Service<'_, J, K, R>,
    listener: &L,
    gate: &mut G,
    session: &mut Session<J>,
) -> Result<(), AcceptFault>
    ensures closed { OnOk result (IsClosed (G.told gate.new)) }
    ensures ends { IfErr result (λ fault. IsFinal (error_of fault)) }
    ensures admitted { OnErr result (IsAdmitted (G.told gate.new)) }
    ensures later { IsLater session.old session.new }
    ensures worked { OnOk result (HasWorked J.opening (G.told gate.old) (G.told gate.new) session.old session.new (asked false ∷ [])) }
    ensures broken { OnErr result (HasWorked J.opening (G.told gate.old) (G.told gate.new) session.old session.new []) }
{
    let mut reception = Reception::new(listener);
    let post = Post {
        service,
        hold: &NoHold,
        noted: Noted::new(service.alloc),
    };
    work_over(&post, &mut reception, gate, session)
}

/// Works as [`work`] does, over a listener of any transport. What is written to each connection are
/// the replies to the messages that were read from it, each only if the hold covers the journal
/// that it was answered over; if the connection fails, the end may be missing.
#[tactic(auto, using(crate::proofs::Later::later_itself, crate::proofs::Later::later_then, crate::proofs::Working::replied_nothing))]
pub(crate) fn work_over<
    L: OpenListener<Stream = S>,
    J: Naming,
    K: Sink,
    G: Gate,
    R: Wait + Clock,
    H: Hold,
    S: Connection + Drop,
>(
    post: &Post<'_, '_, J, K, R, H>,
    reception: &mut Reception<'_, L>,
    gate: &mut G,
    session: &mut Session<J>,
) -> Result<(), AcceptFault>
    ensures closed { OnOk result (IsClosed (G.told gate.new)) }
    ensures ends { IfErr result (λ fault. IsFinal (error_of fault)) }
    ensures admitted { OnErr result (IsAdmitted (G.told gate.new)) }
    ensures later { IsLater session.old session.new }
    ensures worked { OnOk result (HasReplied H.durable J.opening (G.told gate.old) (G.told gate.new) session.old session.new (asked false ∷ [])
        reception.old.written reception.new.written) }
    ensures broken { OnErr result (HasReplied H.durable J.opening (G.told gate.old) (G.told gate.new) session.old session.new []
        reception.old.written reception.new.written) }
{
    let mut scratch = Scratch::new(post.service.alloc);
    for _ in post.service.rt.forever() {
        if !gate.admit() {
            return Ok(());
        }
        if let Err(fault) = converse_next(post, reception, gate, session, &mut scratch) {
            return Err(fault);
        }
    }
    unreachable!()
}

/// Holds a conversation over the session on the next connection. States are read with the memory of
/// `scratch`.
fn converse_next<
    L: OpenListener<Stream = S>,
    J: Naming,
    K: Sink,
    G: Gate,
    R: Wait + Clock,
    H: Hold,
    S: Connection + Drop,
>(
    post: &Post<'_, '_, J, K, R, H>,
    reception: &mut Reception<'_, L>,
    gate: &mut G,
    session: &mut Session<J>,
    scratch: &mut Scratch,
) -> Result<(), AcceptFault>
    ensures ends { IfErr result (λ fault. IsFinal (error_of fault)) }
    ensures kept { OnErr result (G.told gate.new ≡ G.told gate.old) }
    ensures later { IsLater session.old session.new }
    ensures conversed { (bytes : List ℕ) × (text : List ℕ) × GoesOnWith reception.old.written reception.new.written (bytes ∷ []) (text ∷ [])
        × HasConversed H.durable J.opening (G.told gate.old) (G.told gate.new) session.old session.new bytes text }
{
    let mut desk = HeldDesk {
        post,
        session,
        gate,
        scratch,
    };
    converse_over(&post.service.setting(), reception, &mut desk)
}

/// Holds a conversation over the desk on the next connection. The desk keeps its borrowed session
/// and gate.
fn converse_over<
    L: OpenListener<Stream = S>,
    J: Naming,
    K: Sink,
    G: Gate,
    R: Wait + Clock,
    H: Hold,
    S: Connection + Drop,
>(
    setting: &Setting<'_, R>,
    reception: &mut Reception<'_, L>,
    desk: &mut HeldDesk<'_, '_, '_, J, K, G, R, H>,
) -> Result<(), AcceptFault>
    ensures ends { IfErr result (λ fault. IsFinal (error_of fault)) }
    ensures kept { OnErr result (G.told desk.new.gate.now ≡ G.told desk.old.gate.now) }
    ensures loan { (desk.new.session.ghost_name ≡ desk.old.session.ghost_name) × (desk.new.gate.ghost_name ≡ desk.old.gate.ghost_name) }
    ensures later { IsLater desk.old.session.now desk.new.session.now }
    ensures conversed { (bytes : List ℕ) × (text : List ℕ) × GoesOnWith reception.old.written reception.new.written (bytes ∷ []) (text ∷ [])
        × HasConversed H.durable J.opening (G.told desk.old.gate.now) (G.told desk.new.gate.now) desk.old.session.now desk.new.session.now bytes text }
{
    reception.converse_owed(setting, desk)
}
