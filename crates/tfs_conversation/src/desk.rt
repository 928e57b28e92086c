//! Desks, and conversations over them.

ghost use Rattle.std.specs.Prelude.{◌≡◌, ℕ, List, IfOk, IfErr};
ghost use Rattle.std.specs.Io.KnownBytes.{Appends, Consumes};
ghost use Rattle.tfs_conversation.specs.Conversation.{ComesInReads, Converses, BreaksOff, IsReadThrough};
ghost use Rattle.tfs_http.specs.Lent.{TellsReader, TellsWriter};

use crate::buffer::ReplyBuffer;
use crate::conversation::converse_owed;
use crate::ended::Ended;
use crate::owed::OwedDesk;
use crate::reads::Reads;
use std::alloc::Global;
use tfs_calls::{Call, Reply};
use tfs_framing::Form;
use tfs_http::{Outlet, ServeFault, Source};

/// A service that answers calls one after the other.
pub trait Desk {
    ghost use Rattle.tfs_calls.specs.declared.call.Call.{Call};
    ghost use Rattle.tfs_calls.specs.Draft.{CarriesFittingState};
    ghost use Rattle.tfs_calls.specs.Reply.{ReplyValue, reply_value};

    // The steps: from the first value, the call may get the reply and leave the second value.
    ghost step: { Self → Call → ReplyValue → Self → Type 0 };

    /// Answers a call. Its body has at most 16 MiB.
    fn answer(&mut self, call: Call) -> Reply
        requires fitting { CarriesFittingState call }
        ensures answered { step self.old call (reply_value result) self.new };
}

/// Answers each message as soon as it is complete, until the input ends, a request asks to close,
/// or a message whose end isn't known is refused. Each read is counted before it is made.
pub fn converse<R: Source, W: Outlet, D: Desk>(
    alloc: Global,
    reader: &mut R,
    writer: &mut W,
    desk: &mut D,
    reads: &mut Reads,
) -> Result<Ended, ServeFault>
    ensures ended { IfOk result (λ ended. (bytes : List ℕ) × (text : List ℕ)
        × Consumes (R.remaining reader.old) (R.remaining reader.new) bytes
        × Appends (R.taken reader.old) (R.taken reader.new) bytes
        × Appends (W.contents writer.old) (W.contents writer.new) text
        × ComesInReads bytes reads.old reads.new
        × Converses D.step desk.old desk.new bytes text ended) }
    ensures through { IfOk result (λ ended. IsReadThrough ended (R.remaining reader.new)) }
    ensures fault { IfErr result (λ fault. (bytes : List ℕ) × (text : List ℕ)
        × Consumes (R.remaining reader.old) (R.remaining reader.new) bytes
        × Appends (R.taken reader.old) (R.taken reader.new) bytes
        × Appends (W.contents writer.old) (W.contents writer.new) text
        × ComesInReads bytes reads.old reads.new
        × BreaksOff D.step desk.old desk.new bytes text fault reads.old reads.new) }
    ensures reader { TellsReader result (R.failed reader.old) (R.failed reader.new) }
    ensures writer { TellsWriter result (W.failed writer.old) (W.failed writer.new) }
{
    let mut plain = Plain { desk };
    converse_plainly(alloc, reader, writer, &mut plain, reads)
}

/// A desk that writes each reply of a borrowed desk at once.
#[derive(Drop)]
pub struct Plain<'d, D: Desk> {
    pub desk: &'d mut D,
}

impl<'d, D: Desk> OwedDesk for Plain<'d, D> {
    ghost use Rattle.std.specs.Prelude.{◌≡◌};
    ghost use Rattle.tfs_conversation.specs.Conversation.{Plainly};

    // It keeps borrowing the same desk, and the desk answers.
    ghost step = { λ old call said new. (new.desk.ghost_name ≡ old.desk.ghost_name)
        × Plainly D.step old.desk.now call said new.desk.now };

    fn reply<W: Outlet>(
        &mut self,
        call: Call,
        form: Form,
        buffer: &mut ReplyBuffer,
        writer: &mut W,
    ) -> Result<(), ServeFault> {
        let reply = self.desk.answer(call);
        buffer.send(writer, &reply, form)
    }
}

/// Holds a conversation over the borrowed desk, which stays borrowed.
fn converse_plainly<R: Source, W: Outlet, D: Desk>(
    alloc: Global,
    reader: &mut R,
    writer: &mut W,
    plain: &mut Plain<'_, D>,
    reads: &mut Reads,
) -> Result<Ended, ServeFault>
    ensures loan { plain.new.desk.ghost_name ≡ plain.old.desk.ghost_name }
    ensures ended { IfOk result (λ ended. (bytes : List ℕ) × (text : List ℕ)
        × Consumes (R.remaining reader.old) (R.remaining reader.new) bytes
        × Appends (R.taken reader.old) (R.taken reader.new) bytes
        × Appends (W.contents writer.old) (W.contents writer.new) text
        × ComesInReads bytes reads.old reads.new
        × Converses D.step plain.old.desk.now plain.new.desk.now bytes text ended) }
    ensures through { IfOk result (λ ended. IsReadThrough ended (R.remaining reader.new)) }
    ensures fault { IfErr result (λ fault. (bytes : List ℕ) × (text : List ℕ)
        × Consumes (R.remaining reader.old) (R.remaining reader.new) bytes
        × Appends (R.taken reader.old) (R.taken reader.new) bytes
        × Appends (W.contents writer.old) (W.contents writer.new) text
        × ComesInReads bytes reads.old reads.new
        × BreaksOff D.step plain.old.desk.now plain.new.desk.now bytes text fault reads.old reads.new) }
    ensures reader { TellsReader result (R.failed reader.old) (R.failed reader.new) }
    ensures writer { TellsWriter result (W.failed writer.old) (W.failed writer.new) }
{
    converse_owed(alloc, reader, writer, plain, reads)
}
