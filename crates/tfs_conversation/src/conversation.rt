//! Conversations: requests in, replies out.

ghost use Rattle.std.specs.Prelude.{◌≡◌, ◌≤◌, ◌<◌, ◌⊎◌, ◌++◌, ◌↔◌, ℕ, List, [], length, Some, None, Ok, Err, true, false, if◌then◌else◌, IsTrue, IfOk, IfErr, IfSome, OnOk};
ghost use Rattle.std.specs.Io.KnownBytes.{Appends, Consumes};
ghost use Rattle.tfs_framing.specs.Form.{form_of};
ghost use Rattle.tfs_conversation.specs.Conversation.{Said, said_text, is_open, Withholds, AnswersRequest, ComesInReads, Talks, Breaks, IsReadThrough};
ghost use Rattle.tfs_conversation.specs.Turns.{moment, Went, HasEnded, HasStopped, work_left};
ghost use Rattle.tfs_http.specs.Lent.{TellsReader, TellsWriter, WritesPart};
ghost use Rattle.tfs_http.specs.declared.fault.ServeFault.TheVariants.{Write as WriteFault};
ghost use Rattle.tfs_conversation.specs.declared.ended.Ended.TheVariants.{Asked};

use crate::buffer::ReplyBuffer;
use crate::ended::Ended;
use crate::input::{Arrived, Input};
use crate::owed::OwedDesk;
use crate::reads::Reads;
use std::alloc::{AllocError, Global};
use tfs_calls::Reply;
use tfs_framing::{Form, Request};
use tfs_http::{Outlet, Routes, ServeFault, Source, call_of};

/// The form of the reply that refuses a message and ends the conversation.
const CLOSING: Form = Form {
    close: true,
    bare: false,
};

/// Answers each message as soon as it is complete, until the input ends, a request asks to close,
/// a message whose end isn't known is refused, or the desk withholds a reply. Each read is counted
/// before it is made.
pub fn converse_owed<R: Source, W: Outlet, D: OwedDesk>(
    alloc: Global,
    reader: &mut R,
    writer: &mut W,
    desk: &mut D,
    reads: &mut Reads,
) -> Result<Ended, ServeFault>
    ensures ended { IfOk result (λ ended. (bytes : List ℕ) × (text : List ℕ)
        × Consumes (R.remaining reader.old) (R.remaining reader.new) bytes
        × Appends (R.taken reader.old) (R.taken reader.new) bytes
        × Appends (W.contents writer.old) (W.contents writer.new) text
        × ComesInReads bytes reads.old reads.new
        × Talks D.step desk.old desk.new bytes text ended) }
    ensures through { IfOk result (λ ended. IsReadThrough ended (R.remaining reader.new)) }
    ensures fault { IfErr result (λ fault. (bytes : List ℕ) × (text : List ℕ)
        × Consumes (R.remaining reader.old) (R.remaining reader.new) bytes
        × Appends (R.taken reader.old) (R.taken reader.new) bytes
        × Appends (W.contents writer.old) (W.contents writer.new) text
        × ComesInReads bytes reads.old reads.new
        × Breaks D.step desk.old desk.new bytes text fault reads.old reads.new) }
    ensures reader { TellsReader result (R.failed reader.old) (R.failed reader.new) }
    ensures writer { TellsWriter result (W.failed writer.old) (W.failed writer.new)
        ⊎ ((result ≡ Err WriteFault) × (W.failed writer.new ≡ W.failed writer.old) × Withholds D.step) }
{
    let Ok(mut connection) = Connection::new(alloc, desk.wants_heads()) else {
        return Err(ServeFault::NoMemory);
    };
    run(&mut connection, reader, writer, desk, reads)
}

/// The memory of a conversation.
#[derive(Drop)]
pub(crate) struct Connection {
    alloc: Global,
    routes: Routes,
    input: Input,
    buffer: ReplyBuffer,
}

impl Connection {
    /// Makes a connection that has read nothing yet.
    pub(crate) fn new(alloc: Global, keeps_heads: bool) -> Result<Connection, AllocError>
        ensures { IfOk result (λ connection. connection.input ≡ []) }
    {
        let input = Input::new(alloc, keeps_heads)?;
        Connection::after(alloc, input)
    }

    /// Makes a connection that has read this input.
    pub(crate) fn after(alloc: Global, input: Input) -> Result<Connection, AllocError>
        ensures { IfOk result (λ connection. connection.input ≡ input) }
    {
        Ok(Connection {
            alloc,
            routes: Routes::new(alloc)?,
            input,
            buffer: ReplyBuffer::new(alloc)?,
        })
    }

    /// Returns the input.
    pub(crate) fn into_input(self) -> Input
        ensures { result ≡ self.input }
    {
        let Connection { input, .. } = self;
        input
    }

    /// Returns true if nothing was read of the next message.
    pub(crate) fn is_between(&self) -> bool
        ensures { IsTrue result ↔ (self.now.input ≡ []) }
    {
        self.input.is_empty()
    }
}

/// Reads and answers until the conversation ends.
pub(crate) fn run<R: Source, W: Outlet, D: OwedDesk>(
    connection: &mut Connection,
    reader: &mut R,
    writer: &mut W,
    desk: &mut D,
    reads: &mut Reads,
) -> Result<Ended, ServeFault>
    ensures ended { IfOk result (HasEnded D.step (moment desk.old (R.remaining reader.old, R.taken reader.old) (W.contents writer.old) reads.old connection.old.input)
        (moment desk.new (R.remaining reader.new, R.taken reader.new) (W.contents writer.new) reads.new connection.new.input)) }
    ensures fault { IfErr result (HasStopped D.step (moment desk.old (R.remaining reader.old, R.taken reader.old) (W.contents writer.old) reads.old connection.old.input)
        (moment desk.new (R.remaining reader.new, R.taken reader.new) (W.contents writer.new) reads.new connection.new.input)) }
    ensures reader { TellsReader result (R.failed reader.old) (R.failed reader.new) }
    ensures writer { TellsWriter result (W.failed writer.old) (W.failed writer.new)
        ⊎ ((result ≡ Err WriteFault) × (W.failed writer.new ≡ W.failed writer.old) × Withholds D.step) }
{
    loop {
        match turn(connection, reader, writer, desk, reads) {
            Ok(end) => {
                if let Some(ended) = end {
                    return Ok(ended);
                }
            }
            Err(fault) => return Err(fault),
        }
    }
}

/// Reads once if no message is complete, or else answers the first message. Returns how the
/// conversation ends, if it does.
fn turn<R: Source, W: Outlet, D: OwedDesk>(
    connection: &mut Connection,
    reader: &mut R,
    writer: &mut W,
    desk: &mut D,
    reads: &mut Reads,
) -> Result<Option<Ended>, ServeFault>
    ensures went { result ≡ Ok None → Went D.step (moment desk.old (R.remaining reader.old, R.taken reader.old) (W.contents writer.old) reads.old connection.old.input)
        (moment desk.new (R.remaining reader.new, R.taken reader.new) (W.contents writer.new) reads.new connection.new.input) }
    ensures less { result ≡ Ok None → work_left reads.new connection.new.input < work_left reads.old connection.old.input }
    ensures ended { IfOk result (λ end. IfSome end (HasEnded D.step
        (moment desk.old (R.remaining reader.old, R.taken reader.old) (W.contents writer.old) reads.old connection.old.input)
        (moment desk.new (R.remaining reader.new, R.taken reader.new) (W.contents writer.new) reads.new connection.new.input))) }
    ensures fault { IfErr result (HasStopped D.step (moment desk.old (R.remaining reader.old, R.taken reader.old) (W.contents writer.old) reads.old connection.old.input)
        (moment desk.new (R.remaining reader.new, R.taken reader.new) (W.contents writer.new) reads.new connection.new.input)) }
    ensures reader { TellsReader result (R.failed reader.old) (R.failed reader.new) }
    ensures writer { TellsWriter result (W.failed writer.old) (W.failed writer.new)
        ⊎ ((result ≡ Err WriteFault) × (W.failed writer.new ≡ W.failed writer.old) × Withholds D.step) }
{
    let arrived = match connection.input.arrive(connection.alloc, reader, reads) {
        Ok(Some(arrived)) => arrived,
        Ok(None) => return Ok(None),
        Err(fault) => return Err(fault),
    };
    match arrived {
        Arrived::Message(request) => {
            let form = request.form();
            match reply_to(connection, writer, desk, request, form) {
                Ok(()) => Ok(end_after(form.close)),
                Err(fault) => Err(fault),
            }
        }
        Arrived::Refused(refusal) => {
            desk.note_refusal(&refusal);
            let reply = Reply::Refused(refusal);
            match connection.buffer.send(writer, &reply, CLOSING) {
                Ok(()) => Ok(Some(Ended::Refused)),
                Err(fault) => Err(fault),
            }
        }
        Arrived::Ended(ended) => Ok(Some(ended)),
    }
}

/// Returns how the conversation ends after a reply, if it does.
fn end_after(asks_to_close: bool) -> Option<Ended>
    ensures { result ≡ (if asks_to_close then Some Asked else None) }
{
    if asks_to_close {
        Some(Ended::Asked)
    } else {
        None
    }
}

/// Answers a request, and writes the reply in the form that the request asks for.
fn reply_to<W: Outlet, D: OwedDesk>(
    connection: &mut Connection,
    writer: &mut W,
    desk: &mut D,
    request: Request,
    form: Form,
) -> Result<(), ServeFault>
    requires body { length request.body ≤ 16777216 }
    requires form { form ≡ form_of request }
    ensures ok { OnOk result ((said : Said) × AnswersRequest D.step desk.old request said desk.new × (is_open said ≡ true)
        × Appends (W.contents writer.old) (W.contents writer.new) (said_text said (form_of request))) }
    ensures err { IfErr result (λ fault. (said : Said) × AnswersRequest D.step desk.old request said desk.new
        × ((part : WritesPart (W.contents writer.old) (W.contents writer.new) (said_text said (form_of request)) fault)
        × ((is_open said ≡ true) ⊎ ((fault ≡ WriteFault) × (part.part ≡ []))))) }
    ensures input { connection.new.input ≡ connection.old.input }
    ensures writer { TellsWriter result (W.failed writer.old) (W.failed writer.new)
        ⊎ ((result ≡ Err WriteFault) × (W.failed writer.new ≡ W.failed writer.old) × Withholds D.step) }
{
    desk.note_request(&request);
    match call_of(connection.alloc, &connection.routes, request) {
        Ok(call) => desk.reply(call, form, &mut connection.buffer, writer),
        Err(refusal) => {
            desk.note_refusal(&refusal);
            connection
                .buffer
                .send(writer, &Reply::Refused(refusal), form)
        }
    }
}
