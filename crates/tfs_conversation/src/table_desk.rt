//! A desk over a borrowed table, and conversations over it.

ghost use Rattle.std.specs.Prelude.{◌≡◌, ℕ, List, IfOk, IfErr};
ghost use Rattle.std.specs.Io.KnownBytes.{Appends, Consumes};
ghost use Rattle.tfs_calls.specs.Draft.{CarriesFittingState, HasFittingState};
ghost use Rattle.tfs_calls.specs.Reply.{reply_value};
ghost use Rattle.tfs_calls.specs.declared.call.Call.TheVariants.{Read as CallRead, Change, Impact};
ghost use Rattle.tfs_conversation.specs.Conversation.{ComesInReads, Converses, BreaksOff, IsReadThrough};
ghost use Rattle.tfs_conversation.specs.Desk.{AnswersCall};
ghost use Rattle.tfs_http.specs.Lent.{TellsReader, TellsWriter};

use crate::desk::{Desk, converse};
use crate::ended::Ended;
use crate::reads::Reads;
use json::Scratch;
use std::alloc::Global;
use tfs_calls::{Call, Draft, Query, Raw, Reply, a_change_is_answered_as_its_act_is};
use tfs_http::{Outlet, ServeFault, Source};
use tfs_records::Sink;
use tfs_rules::Name;
use tfs_table::Table;

/// A desk that answers from a borrowed table.
#[derive(Drop)]
pub struct TableDesk<'t, K: Sink> {
    pub alloc: Global,
    pub table: &'t mut Table<K>,
}

impl<'t, K: Sink> Desk for TableDesk<'t, K> {
    ghost use Rattle.std.specs.Prelude.{◌≡◌};
    ghost use Rattle.tfs_conversation.specs.Desk.{AnswersCall};

    // The desk keeps borrowing the same table, and the table answers.
    ghost step = { λ old call reply new. (new.table.ghost_name ≡ old.table.ghost_name)
        × AnswersCall old.table.now call reply new.table.now };

    fn answer(&mut self, call: Call) -> Reply {
        let mut scratch = Scratch::new(self.alloc);
        reply_to(self.alloc, self.table, &mut scratch, call)
    }
}

/// A desk that answers from a borrowed table, and reads the states of all changes with the same
/// borrowed scratch memory.
#[derive(Drop)]
struct LentDesk<'t, K: Sink> {
    alloc: Global,
    table: &'t mut Table<K>,
    scratch: &'t mut Scratch,
}

impl<'t, K: Sink> Desk for LentDesk<'t, K> {
    ghost use Rattle.std.specs.Prelude.{◌≡◌};
    ghost use Rattle.tfs_conversation.specs.Desk.{AnswersCall};

    ghost step = { λ old call reply new. (new.table.ghost_name ≡ old.table.ghost_name)
        × AnswersCall old.table.now call reply new.table.now };

    fn answer(&mut self, call: Call) -> Reply {
        reply_to(self.alloc, self.table, self.scratch, call)
    }
}

/// Answers a call. A pushed state is read with the scratch memory.
fn reply_to<K: Sink>(
    alloc: Global,
    table: &mut Table<K>,
    scratch: &mut Scratch,
    call: Call,
) -> Reply
    requires { CarriesFittingState call }
    ensures { AnswersCall table.old call (reply_value result) table.new }
{
    match call {
        Call::Read(name) => read(table, &name),
        Call::Change(name, raw) => change(alloc, table, name, raw, scratch),
        Call::Impact(name, query) => ask(table, &name, &query),
    }
}

/// Returns the state of a name.
#[tactic(auto, using(crate::proofs::DeskLemmas::lacks_by))]
fn read<K: Sink>(table: &Table<K>, name: &Name) -> Reply
    ensures { AnswersCall table.now (CallRead name.now) (reply_value result) table.now }
{
    match table.state(name) {
        Ok(doc) => Reply::State(doc),
        Err(refusal) => Reply::Refused(refusal),
    }
}

/// Returns the instances that a query selects in the state of a name.
#[tactic(auto, using(crate::proofs::DeskLemmas::lacks_by))]
fn ask<K: Sink>(table: &Table<K>, name: &Name, query: &Query) -> Reply
    ensures { AnswersCall table.now (Impact name.now query.now) (reply_value result) table.now }
{
    match table.impact(name, query) {
        Ok(answer) => Reply::Impact(answer),
        Err(refusal) => Reply::Refused(refusal),
    }
}

/// Changes the workspace of a name. A pushed state is read with the scratch memory.
#[tactic(auto, using(crate::proofs::DeskLemmas::unread_lacks, crate::proofs::DeskLemmas::applied_lacks))]
fn change<K: Sink>(
    alloc: Global,
    table: &mut Table<K>,
    name: Name,
    raw: Raw,
    scratch: &mut Scratch,
) -> Reply
    requires { HasFittingState raw }
    ensures { AnswersCall table.old (Change name raw) (reply_value result) table.new }
{
    a_change_is_answered_as_its_act_is();
    let draft = match Draft::read_over(alloc, raw, scratch) {
        Ok(draft) => draft,
        Err(refusal) => return Reply::Refused(refusal),
    };
    match table.apply(name, draft) {
        Ok(position) => Reply::Done(position),
        Err(refusal) => Reply::Refused(refusal),
    }
}

/// Holds a conversation over a borrowed table. The table makes its transitions for the calls of the
/// messages, in order.
pub fn converse_over_table<R: Source, W: Outlet, K: Sink>(
    alloc: Global,
    reader: &mut R,
    writer: &mut W,
    table: &mut Table<K>,
    reads: &mut Reads,
) -> Result<Ended, ServeFault>
    ensures ended { IfOk result (λ ended. (bytes : List ℕ) × (text : List ℕ)
        × Consumes (R.remaining reader.old) (R.remaining reader.new) bytes
        × Appends (R.taken reader.old) (R.taken reader.new) bytes
        × Appends (W.contents writer.old) (W.contents writer.new) text
        × ComesInReads bytes reads.old reads.new
        × Converses AnswersCall table.old table.new bytes text ended) }
    ensures through { IfOk result (λ ended. IsReadThrough ended (R.remaining reader.new)) }
    ensures fault { IfErr result (λ fault. (bytes : List ℕ) × (text : List ℕ)
        × Consumes (R.remaining reader.old) (R.remaining reader.new) bytes
        × Appends (R.taken reader.old) (R.taken reader.new) bytes
        × Appends (W.contents writer.old) (W.contents writer.new) text
        × ComesInReads bytes reads.old reads.new
        × BreaksOff AnswersCall table.old table.new bytes text fault reads.old reads.new) }
    ensures tells { table.new.tells ≡ table.old.tells }
    ensures reader { TellsReader result (R.failed reader.old) (R.failed reader.new) }
    ensures writer { TellsWriter result (W.failed writer.old) (W.failed writer.new) }
{
    let mut scratch = Scratch::new(alloc);
    let mut desk = LentDesk {
        alloc,
        table,
        scratch: &mut scratch,
    };
    converse_over_loan(reader, writer, &mut desk, reads)
}

/// Holds a conversation over the desk, which keeps borrowing the same table.
fn converse_over_loan<R: Source, W: Outlet, K: Sink>(
    reader: &mut R,
    writer: &mut W,
    desk: &mut LentDesk<'_, K>,
    reads: &mut Reads,
) -> Result<Ended, ServeFault>
    ensures loan { desk.new.table.ghost_name ≡ desk.old.table.ghost_name }
    ensures ended { IfOk result (λ ended. (bytes : List ℕ) × (text : List ℕ)
        × Consumes (R.remaining reader.old) (R.remaining reader.new) bytes
        × Appends (R.taken reader.old) (R.taken reader.new) bytes
        × Appends (W.contents writer.old) (W.contents writer.new) text
        × ComesInReads bytes reads.old reads.new
        × Converses AnswersCall desk.old.table.now desk.new.table.now bytes text ended) }
    ensures through { IfOk result (λ ended. IsReadThrough ended (R.remaining reader.new)) }
    ensures fault { IfErr result (λ fault. (bytes : List ℕ) × (text : List ℕ)
        × Consumes (R.remaining reader.old) (R.remaining reader.new) bytes
        × Appends (R.taken reader.old) (R.taken reader.new) bytes
        × Appends (W.contents writer.old) (W.contents writer.new) text
        × ComesInReads bytes reads.old reads.new
        × BreaksOff AnswersCall desk.old.table.now desk.new.table.now bytes text fault reads.old reads.new) }
    ensures tells { desk.new.table.now.tells ≡ desk.old.table.now.tells }
    ensures reader { TellsReader result (R.failed reader.old) (R.failed reader.new) }
    ensures writer { TellsWriter result (W.failed writer.old) (W.failed writer.new) }
{
    converse(desk.alloc, reader, writer, desk, reads)
}
