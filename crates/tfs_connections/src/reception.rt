//! Conversations on the connections of a listener, one after another.

ghost use Rattle.std.specs.Prelude.{◌≡◌, ◌++◌, ◌∷◌, ℕ, List, [], IfErr, OnErr};
ghost use Rattle.tfs_connections.specs.Accepting.{IsFinal, error_of};
ghost use Rattle.tfs_connections.specs.Talking.{read_at, written_at};
ghost use Rattle.tfs_conversation.specs.Conversation.{HasSpoken, HasTalked};

use crate::accepting::{AcceptFault, Listening, take_connection};
use crate::connection::{Incoming, Outgoing};
use crate::load::Load;
use crate::paused::{Begun, Paused};
use crate::timing::Timing;
use crate::transport::{Connection, LentConnection};
use crate::written::{Text, Written};
use std::alloc::{AllocError, Global};
use std::net::OpenListener;
use std::sync::Wait;
use std::sync::atomic::AtomicBool;
use std::time::Clock;
use tfs_conversation::{Conversation, Desk, OwedDesk, Plain, Turn};

/// The setting of conversations: the runtime, the allocator, the flag that asks conversations to
/// end, the flag that forbids all writes, and the load of the workers.
#[derive(Drop)]
pub struct Setting<'s, R> {
    pub rt: &'s R,
    pub alloc: Global,
    pub ended: &'s AtomicBool,
    pub muted: &'s AtomicBool,
    pub load: &'s Load,
}

/// A receiver of connections from a borrowed listener, which holds a conversation on each. Nothing
/// else uses these connections. For proofs, it keeps what was read from each, and what was written
/// to it.
#[derive(Drop)]
pub struct Reception<'l, L: OpenListener> {
    listening: Listening<'l, L>,
    written: Written,
}

impl<'l, L: OpenListener> Reception<'l, L> {
    /// Creates a receiver that has taken no connection.
    pub fn new(listener: &'l L) -> Reception<'l, L>
        ensures read { read_at result ≡ [] }
        ensures written { written_at result ≡ [] }
    {
        Reception {
            listening: Listening::new(listener),
            written: Written::new(),
        }
    }

    /// Returns what was read from each connection, and what was written to it.
    pub fn into_written(self) -> Written
        ensures read { result.read ≡ read_at self.entry }
        ensures texts { result.texts ≡ written_at self.entry }
    {
        let Reception { written, .. } = self;
        written
    }
}

impl<'l, L: OpenListener<Stream = S>, S: Connection + Drop> Reception<'l, L> {
    /// Waits for the next connection, and holds a conversation over a desk on it, of exactly the
    /// bytes that are read from the connection and written to it. If conversations are to end
    /// before a connection comes, or it was gone before it was taken, the conversation has no
    /// bytes.
    ///
    /// # Errors
    ///
    /// Returns the fault of the listener if it is final; the desk is unchanged then, and the
    /// conversation has no bytes.
    pub fn converse<D: Desk, R: Wait + Clock>(
        &mut self,
        setting: &Setting<'_, R>,
        desk: &mut D,
    ) -> Result<(), AcceptFault>
        ensures ends { IfErr result (λ fault. IsFinal (error_of fault)) }
        ensures kept { OnErr result (desk.new ≡ desk.old) }
        ensures talked { (bytes : List ℕ) × (text : List ℕ) × (read_at self.new ≡ read_at self.old ++ bytes ∷ [])
            × (written_at self.new ≡ written_at self.old ++ text ∷ []) × HasTalked D.step desk.old desk.new bytes text }
    {
        let mut plain = Plain { desk };
        self.converse_plainly(setting, &mut plain)
    }

    /// Holds a conversation as `converse` does, over the borrowed desk, which stays borrowed.
    fn converse_plainly<D: Desk, R: Wait + Clock>(
        &mut self,
        setting: &Setting<'_, R>,
        plain: &mut Plain<'_, D>,
    ) -> Result<(), AcceptFault>
        ensures loan { plain.new.desk.ghost_name ≡ plain.old.desk.ghost_name }
        ensures ends { IfErr result (λ fault. IsFinal (error_of fault)) }
        ensures kept { OnErr result (plain.new ≡ plain.old) }
        ensures talked { (bytes : List ℕ) × (text : List ℕ) × (read_at self.new ≡ read_at self.old ++ bytes ∷ [])
            × (written_at self.new ≡ written_at self.old ++ text ∷ []) × HasTalked D.step plain.old.desk.now plain.new.desk.now bytes text }
    {
        self.converse_owed(setting, plain)
    }

    /// Holds a conversation as `converse` does, over a desk whose replies are owed.
    ///
    /// # Errors
    ///
    /// Returns the fault of the listener if it is final; the desk is unchanged then, and the
    /// conversation has no bytes.
    pub fn converse_owed<D: OwedDesk, R: Wait + Clock>(
        &mut self,
        setting: &Setting<'_, R>,
        desk: &mut D,
    ) -> Result<(), AcceptFault>
        ensures ends { IfErr result (λ fault. IsFinal (error_of fault)) }
        ensures kept { OnErr result (desk.new ≡ desk.old) }
        ensures talked { (bytes : List ℕ) × (text : List ℕ) × (read_at self.new ≡ read_at self.old ++ bytes ∷ [])
            × (written_at self.new ≡ written_at self.old ++ text ∷ []) × HasSpoken D.step desk.old desk.new bytes text }
    {
        let next = take_connection(setting.rt, &mut self.listening, setting.ended, setting.load);
        let (texts, result) = match next {
            Ok(stream) => (converse_on(setting, stream, desk), Ok(())),
            Err(fault) => (Texts::new(), Err(fault)),
        };
        self.written = self.written.with(&texts.read, &texts.written);
        result
    }
}

/// The bytes read from a connection, and the bytes written to it.
#[derive(Drop)]
struct Texts {
    read: Text,
    written: Text,
}

impl Texts {
    /// Creates two texts of no bytes.
    fn new() -> Texts
        ensures read { result.read.bytes ≡ [] }
        ensures written { result.written.bytes ≡ [] }
    {
        Texts {
            read: Text::new(),
            written: Text::new(),
        }
    }
}

/// Holds a turn of a conversation over a desk on a connection, if there is one. If reading pauses,
/// has the connection wait for its client. Returns what was written, and what was read, after what
/// earlier turns left unanswered.
fn converse_on<S: Connection + Drop, D: OwedDesk, R: Wait + Clock>(
    setting: &Setting<'_, R>,
    stream: Option<S>,
    desk: &mut D,
) -> Texts
    ensures talked { HasSpoken D.step desk.old desk.new result.read.bytes result.written.bytes }
{
    let Some(stream) = stream else {
        return Texts::new();
    };
    let mut stream = stream;
    if stream.limit().is_err() {
        return Texts::new();
    }
    let Ok((conversation, begun)) = resume(setting.alloc, stream.take_paused(), desk.wants_heads())
    else {
        return Texts::new();
    };
    desk.note_client(stream.client());
    let mut timing = Timing::new(setting.rt, setting.ended, setting.muted, setting.load);
    if let Some(place) = stream.place() {
        timing.outlast(begun, place);
    }
    let (texts, left) = converse_in_time(conversation, &timing, &stream, desk);
    timing.end_slow();
    if let (true, Some(conversation)) = (timing.is_paused(), left) {
        let paused = pause(conversation, &timing);
        let until = timing.until(&paused);
        stream.pause(setting.rt, paused, until);
    }
    texts
}

/// Returns the conversation that earlier turns have left, or else a new one; and how the request has
/// begun that was being read, if there is one.
fn resume(
    alloc: Global,
    paused: Option<Paused>,
    keeps_heads: bool,
) -> Result<(Conversation, Option<Begun>), AllocError> {
    match paused {
        Some(Paused::Within(paused, begun)) => Ok((paused.resume(alloc)?, Some(begun))),
        Some(Paused::Between(reads)) => {
            Ok((Conversation::after(alloc, keeps_heads, reads)?, None))
        }
        None => Ok((Conversation::new(alloc, keeps_heads)?, None)),
    }
}

/// Returns what to keep of a conversation until its next turn.
fn pause<C: Clock>(conversation: Conversation, timing: &Timing<'_, '_, C>) -> Paused {
    match conversation.pause() {
        Ok(reads) => Paused::Between(reads),
        Err(paused) => Paused::Within(paused, timing.begun()),
    }
}

/// Holds a turn of a conversation over a desk on a connection within the time limits. Returns what
/// was written, and what was read, after what earlier turns left unanswered; and the conversation,
/// if it can be resumed.
fn converse_in_time<S: Connection, D: OwedDesk, C: Clock>(
    conversation: Conversation,
    timing: &Timing<'_, '_, C>,
    stream: &S,
    desk: &mut D,
) -> (Texts, Option<Conversation>)
    ensures talked { HasSpoken D.step desk.old desk.new result.0.read.bytes result.0.written.bytes }
{
    let given = Text::of(&conversation);
    let mut reader = Incoming::new(timing, LentConnection::of(stream), given);
    let mut writer = Outgoing::new(timing, LentConnection::of(stream));
    let Turn { left, .. } = conversation.hold(&mut reader, &mut writer, desk);
    let LentConnection { written, .. } = writer.into_stream();
    let texts = Texts {
        read: reader.into_given(),
        written,
    };
    (texts, left)
}
