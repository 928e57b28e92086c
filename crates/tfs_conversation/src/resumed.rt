//! Conversations that are held in several turns.

ghost use Rattle.std.specs.Prelude.{◌≡◌, ◌++◌, ◌⊎◌, ◌↔◌, ℕ, List, [], Err, IsTrue, IfOk, IfErr, IfSome, is_some};
ghost use Rattle.std.specs.Io.KnownBytes.{Appends, Consumes};
ghost use Rattle.tfs_conversation.specs.Conversation.{HasSpoken, Withholds};
ghost use Rattle.tfs_conversation.specs.Turns.{Left, moment, HasTurned};
ghost use Rattle.tfs_http.specs.Lent.{TellsReader, TellsWriter};
ghost use Rattle.tfs_http.specs.declared.fault.ServeFault.TheVariants.{Read, Write};

use crate::conversation::{Connection, run};
use crate::ended::Ended;
use crate::input::Input;
use crate::owed::OwedDesk;
use crate::reads::Reads;
use std::alloc::{AllocError, Global};
use std::marker::Model;
use tfs_http::{Outlet, ServeFault, Source};

/// A conversation that is held in turns. It keeps what was read of the next message, and the number
/// of reads of all turns. Contracts see the bytes that belong to no answered message, and that
/// number.
#[derive(Drop)]
pub struct Conversation {
    connection: Connection,
    reads: Reads,
}

impl Model for Conversation {
    ghost use Rattle.std.specs.Prelude.{◌≤◌, ◌*◌, length};
    ghost use Rattle.tfs_conversation.specs.Turns.{Left};

    ghost Value = { Left };

    ghost view = { λ c. record { rest = c.connection.input; reads = c.reads } };

    ghost invariant = { λ c. length c.connection.input ≤ 65536 * c.reads };
}

/// What is kept of a conversation between two turns, on whichever thread: the bytes that belong to no
/// answered message, and the number of reads.
#[derive(Drop)]
pub struct PausedConversation {
    input: Input,
    reads: Reads,
}

impl Model for PausedConversation {
    ghost use Rattle.std.specs.Prelude.{◌≤◌, ◌*◌, length};
    ghost use Rattle.tfs_conversation.specs.Turns.{Left};

    ghost Value = { Left };

    ghost view = { λ p. record { rest = p.input; reads = p.reads } };

    ghost invariant = { λ p. length p.input ≤ 65536 * p.reads };
}

impl PausedConversation {
    /// Makes the conversation go on.
    pub fn resume(self, alloc: Global) -> Result<Conversation, AllocError>
        ensures resumed { IfOk result (λ conversation. conversation ≡ self) }
    {
        let PausedConversation { input, reads } = self;
        Ok(Conversation {
            connection: Connection::after(alloc, input)?,
            reads,
        })
    }
}

/// The end of a turn: how the conversation ended, or the error that broke it off; and, after an
/// error of the reader, the conversation, which can be resumed.
#[derive(Drop)]
pub struct Turn {
    pub end: Result<Ended, ServeFault>,
    pub left: Option<Conversation>,
}

impl Conversation {
    /// Makes a conversation that has read nothing, whose requests keep their heads if `keeps_heads`
    /// is true.
    pub fn new(alloc: Global, keeps_heads: bool) -> Result<Conversation, AllocError>
        ensures new { IfOk result (λ conversation. conversation ≡ record { rest = []; reads = 0 }) }
    {
        Conversation::after(alloc, keeps_heads, Reads::new())
    }

    /// Makes a conversation that goes on after one of so many reads, between two messages.
    pub fn after(alloc: Global, keeps_heads: bool, reads: Reads) -> Result<Conversation, AllocError>
        ensures after { IfOk result (λ conversation. conversation ≡ record { rest = []; reads = reads }) }
    {
        Ok(Conversation {
            connection: Connection::new(alloc, keeps_heads)?,
            reads,
        })
    }

    /// Returns the number of reads, if nothing was read of the next message. Otherwise returns what
    /// was read of it, too.
    pub fn pause(self) -> Result<Reads, PausedConversation>
        ensures between { IfOk result (λ reads. (reads ≡ self.reads) × (self.rest ≡ [])) }
        ensures within { IfErr result (λ paused. (paused ≡ self) × ¬ (self.rest ≡ [])) }
    {
        let is_between = self.connection.is_between();
        let Conversation { connection, reads } = self;
        if is_between {
            return Ok(reads);
        }
        let input = connection.into_input();
        Err(PausedConversation { input, reads })
    }

    /// Answers messages as `converse_owed` does, until the conversation ends or an error breaks the
    /// turn off. The turn answers the bytes that earlier turns left, and then the bytes that it
    /// reads.
    pub fn hold<R: Source, W: Outlet, D: OwedDesk>(
        self,
        reader: &mut R,
        writer: &mut W,
        desk: &mut D,
    ) -> Turn
        ensures turn { (left : Left) × HasTurned D.step
            (moment desk.old (R.remaining reader.old, R.taken reader.old) (W.contents writer.old) self.reads self.rest)
            (moment desk.new (R.remaining reader.new, R.taken reader.new) (W.contents writer.new) left.reads left.rest) result.end
            × IfSome result.left (λ conversation. conversation ≡ left) }
        ensures left { IsTrue (is_some result.left) ↔ (result.end ≡ Err Read) }
        ensures spoken { (bytes : List ℕ) × (text : List ℕ) × Consumes (R.remaining reader.old) (R.remaining reader.new) bytes
            × Appends (R.taken reader.old) (R.taken reader.new) bytes × Appends (W.contents writer.old) (W.contents writer.new) text
            × HasSpoken D.step desk.old desk.new (self.rest ++ bytes) text }
        ensures reader { TellsReader result.end (R.failed reader.old) (R.failed reader.new) }
        ensures writer { TellsWriter result.end (W.failed writer.old) (W.failed writer.new)
            ⊎ ((result.end ≡ Err Write) × (W.failed writer.new ≡ W.failed writer.old) × Withholds D.step) }
    {
        let Conversation { connection, reads } = self;
        let (mut connection, mut reads) = (connection, reads);
        let end = run(&mut connection, reader, writer, desk, &mut reads);
        if is_unread(&end) {
            let left = Some(Conversation { connection, reads });
            return Turn { end, left };
        }
        Turn { end, left: None }
    }
}

/// Returns true if an error of the reader broke a turn off.
fn is_unread(end: &Result<Ended, ServeFault>) -> bool
    ensures { IsTrue result ↔ (end.now ≡ Err Read) }
{
    match end {
        Err(ServeFault::Read) => true,
        Ok(_) | Err(ServeFault::Write | ServeFault::TooManyReads | ServeFault::NoMemory) => false,
    }
}
